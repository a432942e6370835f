//! A member's command as a conversation.
ghost use Rattle.dory_member.specs.declared.phase.Run.{Run as RunOf};
ghost use Rattle.dory_drive.specs.Member.{member_course};
ghost use Rattle.dory_drive.specs.MemberLaws.{is_course};

use crate::conversation::Conversation;
use dory_member::{Member, Next, Outcome};
use dory_state::KeptState;
use std::alloc::Global;

impl Conversation for Member {
    ghost use Rattle.dory_member.specs.declared.phase.Run.{Run as RunOf};
    ghost use Rattle.dory_drive.specs.Member.{member_course};
    ghost use Rattle.dory_drive.specs.MemberLaws.{is_course};

    type Outcome = Outcome;

    ghost Run = { RunOf };

    ghost run = { λ m. m.run };

    ghost unsaved = { λ m. m.unsaved };

    ghost course = { member_course };

    fn next(&self) -> Next<'_> {
        Member::next(self)
    }

    fn saved(&mut self) {
        Member::saved(self)
    }

    fn take_reply(&mut self, alloc: Global, frame: &[u8]) {
        Member::take_reply(self, alloc, frame)
    }

    fn state(&self) -> &KeptState {
        Member::state(self)
    }

    fn outcome(&self) -> Option<&Outcome> {
        Member::outcome(self)
    }

    ghost laws = { is_course };
}
