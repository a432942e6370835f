//! Bytes into messages: what is read is in the one spelling, and each fault is the first from the left.
//!
//! `whole_request` and `whole_reply` stand apart from them: each has the exact clause alone, of which the others are proved.
ghost use Rattle.std.specs.Prelude.{◌≡◌, IfOk, Ok};
ghost use Rattle.dory_wire.specs.declared.message.Request.{Request as RequestOf};
ghost use Rattle.dory_wire.specs.declared.message.Reply.{Reply as ReplyOf};
ghost use Rattle.dory_wire.specs.Spelling.{spelling_of_request, spelling_of_reply, IsRequest, IsReply};
ghost use Rattle.dory_wire.specs.Reading.{Gives, request_of, reply_of};

use crate::answered::whole_reply;
use crate::asked::whole_request;
use crate::fault::WireFault;
use crate::message::{Reply, Request};
use std::alloc::Global;

/// The request that a message is.
pub fn decode_request(alloc: Global, message: &[u8]) -> Result<Request, WireFault>
    // What is read, and which fault is the first.
    ensures exact { Gives result (request_of message.now) }
    // What is read is spelled so, and is in range.
    ensures spelled { IfOk result (λ r. IsRequest r × (message.now ≡ spelling_of_request r)) }
    // What is spelled so is read, unless memory runs out.
    ensures only { (r : RequestOf) → IsRequest r → message.now ≡ spelling_of_request r → Gives result (Ok r) }
{
    whole_request(alloc, message)
}

/// The reply that a message is.
pub fn decode_reply(alloc: Global, message: &[u8]) -> Result<Reply, WireFault>
    // What is read, and which fault is the first.
    ensures exact { Gives result (reply_of message.now) }
    // What is read is spelled so, and is in range.
    ensures spelled { IfOk result (λ r. IsReply r × (message.now ≡ spelling_of_reply r)) }
    // What is spelled so is read, unless memory runs out.
    ensures only { (r : ReplyOf) → IsReply r → message.now ≡ spelling_of_reply r → Gives result (Ok r) }
{
    whole_reply(alloc, message)
}
