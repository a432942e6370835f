//! Words: what a row holds and what a search asks for.
ghost use Rattle.std.specs.Prelude.{◌≡◌, ◌≤◌, length, position};
ghost use Rattle.std.specs.List.{AllPass};
ghost use Rattle.dory_base.specs.Words.{IsWord, is_separator, is_word_byte, word_of, read_word};

use std::marker::Model;

/// The most bytes that a word has.
const WORD_LEN: usize = 64;

/// 1 to 64 word bytes, with ASCII letters in lower case.
#[derive(Clone, Copy, Debug)]
pub struct Word {
    bytes: [u8; 64],
    len: u8,
}

impl Model for Word {
    ghost use Rattle.std.specs.Prelude.{List, ℕ, take, length, ◌++◌, ◌-◌, replicate};
    ghost use Rattle.dory_base.specs.Words.{IsKept};
    ghost use Rattle.dory_base.specs.WordKept.{kept_again};

    ghost Value = { List ℕ };

    ghost view = { λ w. take w.len w.bytes };

    ghost invariant = { λ w. IsKept w.bytes w.len };

    ghost inverse = { λ word. record { bytes = word ++ replicate (64 - length word) 0; len = length word } };

    ghost inverse_ok = { λ w h. kept_again (λ bytes len. record { bytes = bytes; len = len }) w.bytes w.len h };
}

/// Why bytes are no word.
#[derive(Clone, Copy, Debug, PartialEq, Eq)]
pub enum WordFault {
    /// There are no bytes.
    Empty,
    /// The byte at this place is the first that isn't a word byte.
    NotOneWord { at: usize },
}

impl Word {
    /// The word that these bytes are, with ASCII letters lowered and cut to 64 bytes.
    pub fn read(bytes: &[u8]) -> Result<Word, WordFault>
        ensures { result ≡ read_word bytes.now }
    {
        if bytes.is_empty() {
            return Err(WordFault::Empty);
        }
        match first_separator(bytes) {
            Some(at) => Err(WordFault::NotOneWord { at }),
            None => Ok(Word::of_run(bytes)),
        }
    }

    /// Whether a run may have the byte: an ASCII letter, an ASCII digit or a byte from 0x80 on.
    pub fn has_byte(byte: u8) -> bool
        ensures { result ≡ is_word_byte byte }
    {
        byte.is_ascii_alphanumeric() || byte >= 0x80
    }

    /// The word that a run of word bytes is.
    pub fn of_run(run: &[u8]) -> Word
        requires some { 1 ≤ length run.now }
        requires word_bytes { AllPass is_word_byte run.now }
        ensures { result ≡ word_of run.now }
    {
        let mut bytes = [0; WORD_LEN];
        let len = run.len().min(WORD_LEN);
        for i in 0..len {
            bytes[i] = run[i].to_ascii_lowercase();
        }
        Word {
            bytes,
            len: len as u8,
        }
    }

    pub fn bytes(&self) -> &[u8]
        ensures value { result.now ≡ self.now }
        ensures word { IsWord self.now }
    {
        &self.bytes[..self.len as usize]
    }
}

/// The place of the first byte that no word has.
fn first_separator(bytes: &[u8]) -> Option<usize>
    ensures { result ≡ position is_separator bytes.now }
{
    bytes.iter().position(|byte| !Word::has_byte(*byte))
}
