//! Streams cut into messages, in pieces of several sizes, and lengths out of range.
use crate::{FrameFault, Framer};
use dory_base::NoMemory;
use std::alloc::{AllocError, Global};
use std::test::Fail;

/// The messages of a stream that comes in pieces of so many bytes, and how many bytes are held at its end.
fn cut(alloc: Global, stream: &[u8], size: usize) -> Result<(Vec<Vec<u8>>, usize), FrameFault> {
    let mut messages = Vec::new(alloc);
    let Ok(mut framer) = Framer::new(alloc) else {
        return Err(FrameFault::NoMemory);
    };
    for piece in stream.chunks(size.max(1)) {
        if piece.len() > 65_536 {
            return Err(FrameFault::NoMemory);
        }
        let Ok(()) = framer.feed(alloc, piece) else {
            return Err(FrameFault::NoMemory);
        };
        for _ in 0..piece.len() {
            match framer.next_message(alloc)? {
                Some(message) => {
                    let Ok(()) = messages.push(message) else {
                        return Err(FrameFault::NoMemory);
                    };
                }
                None => break,
            }
        }
    }
    Ok((messages, framer.held()))
}

/// A stream of frames of 1, 21, 3 and 70,000 bytes, and 6 bytes of another.
fn stream(alloc: Global) -> Result<Vec<u8>, AllocError> {
    let mut stream = Vec::new(alloc);
    for (size, byte) in [(1u32, 7u8), (21, 8), (3, 9), (70_000, 10)] {
        stream.extend_from_slice(&size.to_be_bytes())?;
        for _ in 0..size {
            let Ok(()) = stream.push(byte) else {
                return Err(AllocError);
            };
        }
    }
    stream.extend_from_slice(&[0, 0, 0, 5, 1, 2])?;
    Ok(stream)
}

#[test]
fn a_stream_has_the_same_messages_in_pieces_of_any_size(rt: HostRuntime) -> Result<(), Fail> {
    let alloc = rt.alloc();
    let stream = stream(alloc)?;
    for size in [1usize, 2, 7, 65_536] {
        let Ok((messages, held)) = cut(alloc, &stream, size) else {
            return Err(Fail::from(AllocError));
        };
        assert_eq!(rt; messages.len(), 4);
        for (message, (length, byte)) in messages
            .iter()
            .zip([(1usize, 7u8), (21, 8), (3, 9), (70_000, 10)])
        {
            assert_eq!(rt; message.len(), length);
            assert!(rt; message.iter().all(|b| *b == byte));
        }
        assert_eq!(rt; held, 6);
    }
    Ok(())
}

#[test]
fn a_length_out_of_range_is_told_at_each_call(rt: HostRuntime) -> Result<(), Fail> {
    let alloc = rt.alloc();
    for (bytes, n) in [
        ([0u8, 0, 0, 0], 0u32),
        ([0, 16, 0, 1], 1_048_577),
        ([255, 255, 255, 255], u32::MAX),
    ] {
        let Ok(mut framer) = Framer::new(alloc) else {
            return Err(Fail::from(AllocError));
        };
        assert!(rt; framer.feed(alloc, &bytes).is_ok());
        assert!(rt;
            framer
                .next_message(alloc)
                .is_err_and(|fault| fault == FrameFault::Length { n })
        );
        assert!(rt; framer.feed(alloc, &[1]).is_ok());
        assert!(rt;
            framer
                .next_message(alloc)
                .is_err_and(|fault| fault == FrameFault::Length { n })
        );
        assert_eq!(rt; framer.held(), 5);
    }
    Ok(())
}

#[test]
fn the_largest_message_is_taken_out_whole(rt: HostRuntime) -> Result<(), Fail> {
    let alloc = rt.alloc();
    let Ok(mut framer) = Framer::new(alloc) else {
        return Err(Fail::from(AllocError));
    };
    assert!(rt; framer.feed(alloc, &[0, 16, 0, 0]).is_ok());
    let piece = vec![in alloc; 5u8; 65_536]?;
    for _ in 0..16u8 {
        assert!(rt;
            framer
                .next_message(alloc)
                .is_ok_and(|message| message.is_none())
        );
        assert!(rt; framer.feed(alloc, &piece).is_ok());
    }
    let message = framer.next_message(alloc);
    assert!(rt;
        message.is_ok_and(|message| message.is_some_and(|message| message.len() == 1_048_576))
    );
    assert_eq!(rt; framer.held(), 0);
    Ok(())
}
