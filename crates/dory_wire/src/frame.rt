//! Frames: a message with its length before it, so that a stream can be cut into messages.
ghost use Rattle.std.specs.Prelude.{◌≡◌, IfSome, option_map};
ghost use Rattle.dory_wire.specs.Cut.{IsMessage};
ghost use Rattle.dory_wire.specs.Frame.{message_in};

/// The message of bytes that are one whole frame: a length of 1 to 1,048,576, and as many bytes after it.
#[tactic(auto, unfolding(crate::specs::Frame::message_in))]
pub fn whole_message(frame: &[u8]) -> Option<&[u8]>
    ensures value { option_map (λ message. message.now) result ≡ message_in frame.now }
    ensures length { IfSome result (λ message. IsMessage message.now) }
{
    if frame.len() < 4 {
        return None;
    }
    let (front, message) = frame.split_at(4);
    let length = u32::from_be_bytes([front[0], front[1], front[2], front[3]]) as usize;
    if length >= 1 && length <= 1_048_576 && length == message.len() {
        Some(message)
    } else {
        None
    }
}
