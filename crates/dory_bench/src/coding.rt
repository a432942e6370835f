//! The bytes of a Stage and of a Found, both ways.
ghost use Rattle.std.specs.Prelude.{IfOk};
ghost use Rattle.dory_wire.specs.Spelling.{IsReply, IsRequest};

use crate::fault::Fault;
use crate::frames::Frame;
use crate::names::FOLDER;
use crate::run::Run;
use dory_wire::{
    Reply, Request, WireFault, decode_reply, decode_request, encode_reply, encode_request,
    whole_message,
};
use std::alloc::Global;
use std::rt::Clock;

/// The Stage of a post with 2,048 columns, or with 256.
fn stage(alloc: Global, wide: bool) -> Result<Vec<u8>, Fault> {
    let columns = if wide { 2048 } else { 256 };
    let mut frame = Frame::begin(alloc, 4, 0)?;
    frame.four(FOLDER)?;
    frame.update(5)?;
    frame.four(7)?;
    frame.some(&[1, if wide { 11 } else { 8 }, 8])?;
    frame.filling(columns / 8)?;
    frame.filling(16 * columns)?;
    Ok(frame.end())
}

/// The Found of 4,096 lines, or of 96, and eight sums.
fn found(alloc: Global, full: bool) -> Result<Vec<u8>, Fault> {
    let lines = if full { 4096 } else { 96 };
    let mut frame = Frame::begin(alloc, 0x82, 0)?;
    frame.lines(lines)?;
    frame.byte(8)?;
    for _ in 0..8 {
        frame.filling(lines as usize / 8)?;
        frame.filling(16)?;
    }
    Ok(frame.end())
}

/// The fault of a frame that is no message.
fn refused(fault: WireFault) -> Fault {
    match fault {
        WireFault::NoMemory => Fault::NoMemory,
        _ => Fault::Unexpected,
    }
}

/// The request in a frame.
pub fn request_in(alloc: Global, frame: &[u8]) -> Result<Request, Fault>
    ensures { IfOk result IsRequest }
{
    let Some(message) = whole_message(frame) else {
        return Err(Fault::Unexpected);
    };
    match decode_request(alloc, message) {
        Ok(request) => Ok(request),
        Err(fault) => Err(refused(fault)),
    }
}

/// The reply in a frame.
fn reply_in(alloc: Global, frame: &[u8]) -> Result<Reply, Fault>
    ensures { IfOk result IsReply }
{
    let Some(message) = whole_message(frame) else {
        return Err(Fault::Unexpected);
    };
    match decode_reply(alloc, message) {
        Ok(reply) => Ok(reply),
        Err(fault) => Err(refused(fault)),
    }
}

/// The request to stage a post.
pub fn staging<R: Clock>(run: &Run<R>) -> Result<Request, Fault>
    ensures { IfOk result IsRequest }
{
    let frame = stage(run.alloc, run.is_full())?;
    request_in(run.alloc, &frame)
}

/// Writing a Stage.
pub fn encode_stage<R: Clock>(run: &mut Run<R>) -> Result<(), Fault> {
    let request = staging(run)?;
    let start = run.start()?;
    for _ in 0..run.turns {
        run.sum.bytes(&encode_request(run.alloc, &request)?);
    }
    run.stop(start)
}

/// Reading a Stage.
pub fn decode_stage<R: Clock>(run: &mut Run<R>) -> Result<(), Fault> {
    let frame = stage(run.alloc, run.is_full())?;
    let start = run.start()?;
    for _ in 0..run.turns {
        let request = request_in(run.alloc, &frame)?;
        run.sum.wanted(&request.want);
    }
    run.stop(start)
}

/// Writing a Found.
pub fn encode_found<R: Clock>(run: &mut Run<R>) -> Result<(), Fault> {
    let frame = found(run.alloc, run.is_full())?;
    let reply = reply_in(run.alloc, &frame)?;
    let start = run.start()?;
    for _ in 0..run.turns {
        run.sum.bytes(&encode_reply(run.alloc, &reply)?);
    }
    run.stop(start)
}

/// Reading a Found.
pub fn decode_found<R: Clock>(run: &mut Run<R>) -> Result<(), Fault> {
    let frame = found(run.alloc, run.is_full())?;
    let start = run.start()?;
    for _ in 0..run.turns {
        let reply = reply_in(run.alloc, &frame)?;
        run.sum.answered(&reply.what);
    }
    run.stop(start)
}
