//! The frame by which a domain's core answers a frame.
ghost use Rattle.std.specs.Prelude.{◌≡◌, Some, None, IfOk, IsErrOf};
ghost use Rattle.dory_wire.specs.declared.message.Request.{Request as Asked};
ghost use Rattle.dory_wire.specs.Reading.{request_in};
ghost use Rattle.dory_link.specs.Told.{IsReplyFrame, Grows};
ghost use Rattle.dory_link.specs.Folders.{told_folders};
ghost use Rattle.dory_link.specs.InMemory.{IsFrameAnswered, MayHaveAnswered};

use dory_domain::DomainCore;
use dory_wire::{WireFault, whole_message};
use std::alloc::Global;

/// Why a frame isn't answered.
#[derive(Clone, Copy, Debug, PartialEq, Eq)]
pub enum AnswerError {
    /// It is no request.
    NoRequest,
    NoMemory,
}

/// The frame that answers a request, twice.
pub fn answer(
    alloc: Global,
    core: &mut DomainCore,
    request: &[u8],
) -> Result<(Vec<u8>, Vec<u8>), AnswerError>
    ensures grown { Grows (Some (told_folders core.old.folders)) (Some (told_folders core.new.folders)) }
    ensures copied { IfOk result (λ frames. frames.1.items ≡ frames.0.items) }
    ensures answers { IfOk result (λ frames. IsReplyFrame (Some (told_folders core.old.folders)) (Some (told_folders core.new.folders)) request.now frames.0.items) }
    ensures read { IfOk result (λ _. (asked : Asked) × (request_in request.now ≡ Some asked)) }
    ensures answered { IfOk result (λ frames. IsFrameAnswered core.old.folders request.now frames.0.items core.new.folders) }
    ensures refused { IsErrOf result AnswerError.NoRequest → core.new.folders ≡ core.old.folders }
    ensures memory { IsErrOf result AnswerError.NoMemory → MayHaveAnswered core.old.folders request.now core.new.folders }
    ensures unread { IsErrOf result AnswerError.NoRequest → request_in request.now ≡ None }
{
    let Some(message) = whole_message(request) else {
        return Err(AnswerError::NoRequest);
    };
    let frame = match core.answer(alloc, message) {
        Ok(frame) => frame,
        Err(WireFault::NoMemory) => return Err(AnswerError::NoMemory),
        Err(_) => return Err(AnswerError::NoRequest),
    };
    match frame.as_slice().to_vec(alloc) {
        Ok(copy) => Ok((frame, copy)),
        Err(_) => Err(AnswerError::NoMemory),
    }
}
