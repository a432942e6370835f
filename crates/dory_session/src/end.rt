//! How a session ends.

/// Why no more messages are answered.
#[derive(Clone, Copy, Debug, PartialEq, Eq)]
pub enum How {
    /// The input ended between frames.
    Ended,
    /// The input ended inside a frame, of which so many bytes came.
    Cut { held: usize },
    /// The next frame has a length out of range.
    Length { n: u32 },
    /// The next message has no kind of a request.
    Kind { b: u8 },
    /// A field of the next message is cut short or out of range.
    Body { at: usize },
    /// Bytes follow the last field of the next message.
    Trailing { at: usize },
    InputFault,
    OutputFault,
    /// As many messages were answered as a session answers.
    Limit,
    NoMemory,
}

/// How many messages were answered by a whole reply, and why no more.
#[derive(Clone, Copy, Debug, PartialEq, Eq)]
pub struct SessionEnd {
    pub answered: u32,
    pub how: How,
}
