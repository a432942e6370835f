//! The words of a command line.

use std::rt::Env;
use std::{env, io};

/// The words after the program's name. Words that aren't UTF-8 are an error.
pub fn typed_words<R: Env + AllocGlobal>(rt: &R) -> io::Result<Vec<String>> {
    let mut words = Vec::new(rt.alloc());
    for word in env::args(rt)?.skip(1) {
        words.push(word)?;
    }
    Ok(words)
}
