//! Messages into bytes: a whole frame, in the one spelling.
ghost use Rattle.std.specs.Prelude.{◌≡◌, ◌≤◌, IfOk, Some, length};
ghost use Rattle.dory_wire.specs.Asked.{request_by};
ghost use Rattle.dory_wire.specs.Frame.{frame_of};
ghost use Rattle.dory_wire.specs.Spelling.{spelling_of_request, spelling_of_reply, IsRequest, IsReply};
ghost use Rattle.dory_wire.specs.Reading.{request_in, reply_in};

use crate::message::{Reply, Request, Want, WantRef};
use crate::spell::{kind_of_want, kind_of_what, put_ask, put_want, put_what};
use dory_base::{AskId, FolderId, NoMemory};
use dory_fields::put_u32;
use std::alloc::Global;

fn framed(alloc: Global, message: &[u8]) -> Result<Vec<u8>, NoMemory>
    requires { length message.now ≤ 1048576 }
    ensures { IfOk result (λ frame. frame.items ≡ frame_of message.now) }
{
    let mut frame = Vec::new(alloc);
    put_u32(&mut frame, message.len() as u32)?;
    frame.extend_from_slice(message)?;
    Ok(frame)
}

#[tactic(auto, unfolding(crate::specs::Spelling::spelling_of_request))]
fn spelled_request(
    alloc: Global,
    ask: AskId,
    folder: FolderId,
    want: &WantRef<'_>,
) -> Result<Vec<u8>, NoMemory>
    ensures { IfOk result (λ message. message.items ≡ spelling_of_request (request_by ask folder want.now)) }
{
    let mut message = Vec::new(alloc);
    message.push(kind_of_want(want))?;
    put_ask(&mut message, &ask)?;
    put_u32(&mut message, folder.0)?;
    put_want(&mut message, want)?;
    Ok(message)
}

#[tactic(auto, unfolding(crate::specs::Spelling::spelling_of_reply))]
fn spelled_reply(alloc: Global, reply: &Reply) -> Result<Vec<u8>, NoMemory>
    requires { IsReply reply.now }
    ensures { IfOk result (λ message. message.items ≡ spelling_of_reply reply.now) }
{
    let mut message = Vec::new(alloc);
    message.push(kind_of_what(&reply.what))?;
    put_ask(&mut message, &reply.ask)?;
    put_what(&mut message, &reply.what)?;
    Ok(message)
}

/// The whole frame of a request, out of its ask, its folder and what is asked.
pub fn encode_ask(
    alloc: Global,
    ask: AskId,
    folder: FolderId,
    want: &WantRef<'_>,
) -> Result<Vec<u8>, NoMemory>
    requires { IsRequest (request_by ask folder want.now) }
    ensures spelled { IfOk result (λ frame. frame.items ≡ frame_of (spelling_of_request (request_by ask folder want.now))) }
    ensures read_back { IfOk result (λ frame. request_in frame.items ≡ Some (request_by ask folder want.now)) }
{
    let message = spelled_request(alloc, ask, folder, want)?;
    framed(alloc, &message)
}

/// The whole frame of a request.
pub fn encode_request(alloc: Global, request: &Request) -> Result<Vec<u8>, NoMemory>
    requires { IsRequest request.now }
    ensures spelled { IfOk result (λ frame. frame.items ≡ frame_of (spelling_of_request request.now)) }
    ensures read_back { IfOk result (λ frame. request_in frame.items ≡ Some request.now) }
{
    let want = match &request.want {
        Want::Latest => WantRef::Latest,
        Want::Search {
            version,
            shape,
            keys,
        } => WantRef::Search {
            version: *version,
            shape: *shape,
            keys,
        },
        Want::Which { number } => WantRef::Which { number: *number },
        Want::Stage { entry } => WantRef::Stage { entry },
        Want::Order { id } => WantRef::Order { id: *id },
        Want::Follow { number, id } => WantRef::Follow {
            number: *number,
            id: *id,
        },
    };
    encode_ask(alloc, request.ask, request.folder, &want)
}

/// The whole frame of a reply.
pub fn encode_reply(alloc: Global, reply: &Reply) -> Result<Vec<u8>, NoMemory>
    requires { IsReply reply.now }
    ensures spelled { IfOk result (λ frame. frame.items ≡ frame_of (spelling_of_reply reply.now)) }
    ensures read_back { IfOk result (λ frame. reply_in frame.items ≡ Some reply.now) }
{
    let message = spelled_reply(alloc, reply)?;
    framed(alloc, &message)
}
