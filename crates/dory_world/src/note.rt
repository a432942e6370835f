//! A message that was put, to be carried or returned at any time.
ghost use Rattle.std.specs.Prelude.{◌≡◌, option_map, slice_get};
ghost use Rattle.dory_wire.specs.Spelling.{IsRequest};
ghost use Rattle.dory_run.specs.World.{Asked, Replied};

use dory_base::{MemberId, Side};
use dory_run::Bytes;
use dory_wire::Request;
use std::marker::Model;

/// What was put.
#[derive(Drop)]
pub enum Put {
    /// A member's ask to a domain.
    Asked {
        side: Side,
        request: Request,
    },
    /// A frame to a member, in a domain's name.
    Replied {
        side: Side,
        member: MemberId,
        frame: Bytes,
    },
}

/// A message, which contracts see as one of the world.
#[derive(Drop)]
pub struct Note {
    pub put: Put,
}

impl Model for Note {
    ghost use Rattle.dory_run.specs.World.{Message};

    ghost Value = { Message };

    ghost use Rattle.dory_world.specs.Notes.{message_of, IsCarried};

    ghost view = { λ n. message_of n.put };

    ghost invariant = { λ n. IsCarried n.put };
}

impl Note {
    pub fn asked(side: Side, request: Request) -> Note
        requires { IsRequest request }
        ensures { result ≡ Asked side request }
    {
        Note {
            put: Put::Asked { side, request },
        }
    }

    pub fn replied(side: Side, member: MemberId, frame: Bytes) -> Note
        ensures { result ≡ Replied side member frame }
    {
        Note {
            put: Put::Replied {
                side,
                member,
                frame,
            },
        }
    }
}

/// The message of a number, if there is one.
pub fn note_at(notes: &[Note], number: u32) -> Option<&Note>
    ensures { option_map (λ n. n.now) result ≡ slice_get notes.now number }
{
    notes.get(number as usize)
}
