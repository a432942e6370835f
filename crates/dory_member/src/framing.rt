//! The frame of what a phase asks.
ghost use Rattle.std.specs.Prelude.{◌<◌, ◌^◌, IfOk};
ghost use Rattle.dory_wire.specs.Spelling.{IsAsk};
ghost use Rattle.dory_member.specs.Course.{asks};
ghost use Rattle.dory_member.specs.Machine.{IsFramed};
ghost use Rattle.dory_member.specs.Within.{Within};

use crate::frame::Frame;
use crate::phase::{Phase, Single};
use crate::turn::single_of;
use dory_base::{AskId, FolderId, NoMemory};
use dory_wire::{WantRef, encode_ask};
use std::alloc::Global;

/// Which ask it is, and of which folder.
#[derive(Clone, Copy)]
pub struct Asked {
    pub ask: AskId,
    pub folder: FolderId,
}

/// The frame of what a phase asks. Where it asks nothing, there are no bytes.
pub fn frame_of(alloc: Global, asked: Asked, phase: &Phase) -> Result<Frame, NoMemory>
    requires ask { IsAsk asked.ask }
    requires folder { asked.folder.0 < 2 ^ 32 }
    requires within { Within phase.now asked.ask.step }
    ensures { IfOk result (λ frame. IsFramed asked.ask asked.folder (asks phase.now) frame) }
{
    let want = match phase {
        Phase::Updating { entry, at } => match single_of(entry.id, *at) {
            Single::Stage { .. } => WantRef::Stage { entry },
            Single::Which { number } => WantRef::Which { number },
            Single::Order { id } => WantRef::Order { id },
            Single::Follow { number, id } => WantRef::Follow { number, id },
        },
        Phase::Measuring { .. } => WantRef::Latest,
        Phase::Searching { query, lead } => WantRef::Search {
            version: query.version,
            shape: query.shape,
            keys: match lead {
                None => &query.lead_keys,
                Some(_) => &query.follow_keys,
            },
        },
        Phase::Ended { .. } => return Ok(Frame::empty(alloc)),
    };
    let bytes = encode_ask(alloc, asked.ask, asked.folder, &want)?;
    Ok(Frame::of(bytes))
}
