//! A stream that comes in pieces, cut into messages.
ghost use Rattle.std.specs.Prelude.{◌≡◌, ◌≤◌, [], ◌++◌, ◌+◌, List, ℕ, length, drop, option_map, Err, IfOk, IfErr, IfSome, OnOk, OnErr};
ghost use Rattle.dory_wire.specs.declared.framer.FrameFault.TheVariants.{NoMemory as OutOfMemory};
ghost use Rattle.dory_wire.specs.Frame.{frame_of};
ghost use Rattle.dory_wire.specs.Cut.{IsMessage, TakesOut, Fronts, IsCutting, GoesOn, front_of};

use dory_base::NoMemory;
use std::alloc::{AllocError, Global};
use std::marker::Model;

/// Why no message is taken out.
#[derive(Clone, Copy, Debug, PartialEq, Eq)]
pub enum FrameFault {
    /// The length in front, which is 0 or above 1,048,576.
    Length { n: u32 },
    NoMemory,
}

impl From<AllocError> for FrameFault {
    ghost from_gives = { λ _ e. e ≡ OutOfMemory };

    fn from(_error: AllocError) -> FrameFault {
        FrameFault::NoMemory
    }
}

/// The bytes that came and are in no message yet, in contracts a list of bytes.
///
/// A message that is taken out only moves the place where the bytes held begin. They move to the front of the buffer
/// when a piece comes and at least half of the buffer is bytes that were taken out. So a byte is moved only where at
/// least one taken byte makes room, and feeding and taking out cost a constant for each byte, in whatever pieces the
/// stream comes. The buffer has at most twice the bytes held before the last piece, and that piece.
#[derive(Debug, Drop)]
pub struct Framer {
    bytes: Vec<u8>,
    start: usize,
}

impl Model for Framer {
    ghost Value = { List ℕ };

    ghost view = { λ f. drop f.start f.bytes.items };

    ghost invariant = { λ f. f.start ≤ length f.bytes.items };
}

impl Framer {
    /// A framer that holds no bytes.
    pub fn new(alloc: Global) -> Result<Framer, NoMemory>
        ensures { IfOk result (λ f. f ≡ []) }
    {
        Ok(Framer {
            bytes: Vec::new(alloc),
            start: 0,
        })
    }

    /// The number of bytes held.
    pub fn held(&self) -> usize
        ensures { result ≡ length self.now }
    {
        self.bytes.len() - self.start
    }

    /// Appends a piece of the stream. Where memory runs out, nothing changes.
    pub fn feed(&mut self, _alloc: Global, piece: &[u8]) -> Result<(), NoMemory>
        requires { length piece.now ≤ 65536 }
        ensures ok { OnOk result (self.new ≡ self.old ++ piece.now) }
        ensures err { OnErr result (self.new ≡ self.old) }
        // Whatever the pieces, the messages and the bytes held are what is cut of all that was fed.
        ensures cut { (fed : List ℕ) (taken : List (List ℕ)) → IsCutting fed taken self.old → OnOk result (IsCutting (fed ++ piece.now) taken self.new) }
    {
        self.append(piece)
    }

    /// Appends bytes to those held, or changes nothing. It stands apart from `feed`, whose clause on all that was fed is
    /// proved of these two.
    fn append(&mut self, piece: &[u8]) -> Result<(), NoMemory>
        requires { length piece.now ≤ 65536 }
        ensures ok { OnOk result (self.new ≡ self.old ++ piece.now) }
        ensures err { OnErr result (self.new ≡ self.old) }
    {
        if self.start >= self.held() {
            self.compact();
        }
        self.bytes.extend_from_slice(piece)?;
        Ok(())
    }

    /// Moves the bytes held to the front of the buffer.
    fn compact(&mut self)
        ensures { self.new ≡ self.old }
    {
        let held = self.held();
        self.bytes.copy_within(self.start.., 0);
        self.bytes.truncate(held);
        self.start = 0;
    }

    /// Takes out the next whole message. After a fault the same bytes are held.
    pub fn next_message(&mut self, alloc: Global) -> Result<Option<Vec<u8>>, FrameFault>
        ensures takes { TakesOut self.old self.new result }
        ensures cut { (fed : List ℕ) (taken : List (List ℕ)) → IsCutting fed taken self.old → GoesOn fed taken self.new result }
        // The bytes held were its frame, and those that are left.
        ensures frame { IfOk result (λ found. IfSome found (λ message. IsMessage message.items × (self.old ≡ frame_of message.items ++ self.new))) }
    {
        self.take_front(alloc)
    }

    /// Takes out the message at the front. It stands apart from `next_message`, whose clause on all that was fed is proved
    /// of these.
    fn take_front(&mut self, alloc: Global) -> Result<Option<Vec<u8>>, FrameFault>
        ensures takes { TakesOut self.old self.new result }
        ensures frame { IfOk result (λ found. IfSome found (λ message. IsMessage message.items × (self.old ≡ frame_of message.items ++ self.new))) }
    {
        match front(&self.bytes[self.start..]) {
            Err(n) => Err(FrameFault::Length { n }),
            Ok(None) => Ok(None),
            Ok(Some(message)) => {
                let message = Vec::from_slice(alloc, message)?;
                self.start += 4 + message.len();
                Ok(Some(message))
            }
        }
    }
}

/// The message at the front of the bytes held, or the length there that is out of range.
#[tactic(auto, unfolding(crate::specs::Cut::front_of))]
fn front(held: &[u8]) -> Result<Option<&[u8]>, u32>
    ensures found { IfOk result (λ found. Fronts held.now (option_map (λ message. message.now) found)) }
    ensures wrong { IfErr result (λ n. front_of held.now ≡ Err n) }
    ensures frame { IfOk result (λ found. IfSome found (λ message. IsMessage message.now × (held.now ≡ frame_of message.now ++ drop (4 + length message.now) held.now))) }
    ensures within { IfOk result (λ found. IfSome found (λ message. 4 + length message.now ≤ length held.now)) }
{
    if held.len() < 4 {
        return Ok(None);
    }
    let (front, rest) = held.split_at(4);
    let n = u32::from_be_bytes([front[0], front[1], front[2], front[3]]);
    let length = n as usize;
    if length < 1 || length > 1_048_576 {
        return Err(n);
    }
    if rest.len() < length {
        return Ok(None);
    }
    Ok(Some(&rest[..length]))
}
