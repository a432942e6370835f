//! A post's text, read to its end, and its row.
ghost use Rattle.std.specs.Prelude.{◌≡◌, ◌^◌, length, IfOk, IsErrOf};
ghost use Rattle.dory_bloom.specs.PlainRow.{plain_row_of};
ghost use Rattle.dory_io.specs.Bytes.{Tells};
ghost use Rattle.dory_io.specs.Causes.{HasCause};
ghost use Rattle.dory_words.specs.WordsIn.{words_in};
ghost use Rattle.dory_client.specs.Input.{IsTextRead, AreTooMany};

use dory_base::{Bits, NoMemory, Shape};
use dory_bloom::plain_row;
use dory_hmac::FolderKeys;
use dory_io::Source;
use dory_words::words_of;
use std::alloc::Global;

/// The most bytes of a text.
const LIMIT: usize = 8_388_608;

/// How many bytes are read at a time.
const ROOM: usize = 4096;

/// Why a text wasn't read.
#[derive(Clone, Copy, Debug, PartialEq, Eq)]
pub enum InputEnd {
    /// The input failed.
    Fault,
    /// The input has more bytes than a text.
    Long,
    NoMemory,
}

/// The bytes of an input, read to its end, where they are at most 8,388,608.
pub fn read_text<S: Source>(alloc: Global, input: &mut S) -> Result<Vec<u8>, InputEnd>
    ensures read { IsTextRead (S.left input.old) (S.left input.new) (S.given input.old) (S.given input.new) result }
    // Of an input that tells its bytes left, the text is these, and it is too long only where they are too many.
    ensures text { IfOk result (λ text. Tells (S.left input.old) text.items) }
    ensures long { IsErrOf result InputEnd.Long → AreTooMany (S.left input.old) }
    ensures cause { HasCause (S.faults input.old) (S.faults input.new) (IsErrOf result InputEnd.Fault) }
{
    let mut text = Vec::new(alloc);
    let mut room = [0; ROOM];
    loop {
        let n = match input.read(&mut room) {
            Ok(0) => return Ok(text),
            Ok(n) => n,
            Err(_) => return Err(InputEnd::Fault),
        };
        if n > LIMIT - text.len() {
            return Err(InputEnd::Long);
        }
        match text.extend_from_slice(&room[..n]) {
            Ok(()) => {}
            Err(_) => return Err(InputEnd::NoMemory),
        }
    }
}

/// The row of a text: the positions of its words, under the keys of a folder.
pub fn text_row(
    alloc: Global,
    keys: &FolderKeys,
    shape: Shape,
    text: &[u8],
) -> Result<Bits, NoMemory>
    ensures row { IfOk result (λ row. row ≡ plain_row_of keys.now shape (words_in text.now)) }
    // It has a cell for each column.
    ensures len { IfOk result (λ row. length row ≡ 2 ^ shape.depth) }
{
    let words = words_of(alloc, text)?;
    plain_row(alloc, keys, shape, &words)
}
