//! Words as a shell hands them over, which need not be text.
ghost use Rattle.std.specs.Io.{WritesAtMost};

use crate::typed_words;
use std::alloc::Global;
use std::env::FillError;
use std::rt::Env;
use std::test::Fail;

/// A program that was called with these words.
#[derive(Drop)]
struct Shell<'a> {
    words: &'a [&'a [u8]],
}

/// Copies a word to the start of a buffer.
fn filled(word: &[u8], buf: &mut [u8]) -> Result<usize, FillError>
    ensures { WritesAtMost result buf.new }
{
    let place = buf.get_mut(..word.len()).ok_or(FillError::TooLong)?;
    place.copy_from_slice(word);
    Ok(word.len())
}

impl<'a> Env for Shell<'a> {
    fn arg(&self, i: usize, buf: &mut [u8]) -> Result<usize, FillError> {
        filled(self.words.get(i).ok_or(FillError::NotPresent)?, buf)
    }

    fn var(&self, _name: &str, _buf: &mut [u8]) -> Result<usize, FillError> {
        Err(FillError::NotPresent)
    }

    fn var_at(&self, _i: usize, _buf: &mut [u8]) -> Result<usize, FillError> {
        Err(FillError::NotPresent)
    }
}

#[test]
fn words_that_are_not_text_are_refused(rt: HostRuntime) -> Result<(), Fail> {
    let alloc = rt.alloc();
    let text: [&[u8]; 3] = [b"dory", b"search", "é".as_bytes()];
    let words = typed_words(&(Shell { words: &text }, alloc))?;
    assert!(rt; words.len() == 2 && words[1].as_str() == "é");
    let none: [&[u8]; 3] = [b"dory", b"search", &[0xe9]];
    assert!(rt; typed_words(&(Shell { words: &none }, alloc)).is_err());
    Ok(())
}
