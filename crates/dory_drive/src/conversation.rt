//! What a conversation with the two domains is.
ghost use Rattle.std.specs.Prelude.{◌≡◌, ◌-◌, Bool, true, false, option_map};
ghost use Rattle.dory_state.specs.Spelling.{IsKeptState};
ghost use Rattle.dory_drive.specs.Course.{Course, IsCourse, IsTurn, Takes, ended_at, is_asking};

use dory_member::Next;
use dory_state::KeptState;
use std::alloc::Global;

/// Goes on reply by reply. It asks and keeps nothing by itself: whoever drives it saves its state and sends its frames,
/// each when it is due, and hands it the replies.
pub trait Conversation {
    type Outcome;

    ghost use Rattle.std.specs.Prelude.{Bool, true};
    ghost use Rattle.dory_drive.specs.Course.{Course, IsCourse};

    ghost Run: { Type 0 };

    /// How far it has come.
    ghost run: { Self → Run };

    /// Whether its state has to be saved before it goes on.
    ghost unsaved: { Self → Bool };

    ghost course: { Course Run Self.Outcome };

    /// What has to be done next.
    fn next(&self) -> Next<'_>
        ensures { IsTurn course (run self.now) (unsaved self.now) result };

    /// The state was saved.
    fn saved(&mut self)
        requires { unsaved self.old ≡ true }
        ensures run { run self.new ≡ run self.old }
        ensures saved { unsaved self.new ≡ false };

    /// A reply came to the last ask, as these bytes.
    fn take_reply(&mut self, alloc: Global, frame: &[u8])
        requires { is_asking (course.asks (run self.old)) (unsaved self.old) ≡ true }
        ensures taken { Takes course (run self.old) frame.now (run self.new) }
        ensures unsaved { unsaved self.new ≡ course.saves_last (run self.new) }
        ensures left { course.left (run self.new) ≡ course.left (run self.old) - 1 };

    /// What a save keeps.
    fn state(&self) -> &KeptState
        ensures value { result.now ≡ course.kept (run self.now) }
        ensures range { IsKeptState result.now };

    /// How it ended, at its end.
    fn outcome(&self) -> Option<&Self::Outcome>
        ensures { option_map (λ outcome. outcome.now) result ≡ ended_at course (run self.now) (unsaved self.now) };

    ghost laws: { IsCourse course };
}
