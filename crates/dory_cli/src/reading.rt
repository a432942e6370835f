//! The words of a command line are read: the command first, then the words behind it, then their values.
ghost use Rattle.std.specs.Prelude.{◌≡◌, ◌≤◌, IfOk, map, string_bytes};
ghost use Rattle.dory_base.specs.Words.{IsWord};
ghost use Rattle.dory_cli.specs.Commands.{AreTexts};
ghost use Rattle.dory_cli.specs.Line.{Gives, IsLine, doc_of, init_of, line_of, line_with, name_of, nothing_or, search_of};

use crate::checked::has_barred;
use crate::fault::{NumberField, UsageFault};
use crate::init::init_texts;
use crate::line::Line;
use crate::values::{init_values, number_in, searched};
use crate::word::{no_words, one_word};
use dory_base::{DocId, Word};
use std::alloc::Global;

/// Which command it is.
#[derive(Clone, Copy)]
enum Name {
    Init,
    Post,
    Remove,
    Search,
    Resume,
    Latest,
    Rotate,
}

/// The command that a word names.
fn named(word: &str) -> Option<Name>
    ensures { result ≡ name_of word.now }
{
    if word == "init" {
        Some(Name::Init)
    } else if word == "post" {
        Some(Name::Post)
    } else if word == "remove" {
        Some(Name::Remove)
    } else if word == "search" {
        Some(Name::Search)
    } else if word == "resume" {
        Some(Name::Resume)
    } else if word == "latest" {
        Some(Name::Latest)
    } else if word == "rotate" {
        Some(Name::Rotate)
    } else {
        None
    }
}

/// What the words of `init` say.
fn init_line(alloc: Global, words: &[String]) -> Result<Line, UsageFault>
    requires { AreTexts (map string_bytes words.now) }
    ensures value { Gives result (init_of (map string_bytes words.now)) }
    ensures range { IfOk result IsLine }
{
    match init_texts(alloc, words) {
        Ok(texts) => init_values(&texts),
        Err(fault) => Err(fault),
    }
}

/// The document of `post` and `remove`.
fn doc(alloc: Global, command: &str, words: &[String]) -> Result<DocId, UsageFault>
    requires { AreTexts (map string_bytes words.now) }
    ensures value { Gives result (doc_of (map string_bytes words.now)) }
    ensures range { IfOk result (λ d. d.0 ≤ 4294967295) }
{
    match one_word(alloc, command, words) {
        Ok(text) => {
            let number = number_in(NumberField::Doc, text, 0, u32::MAX as u64)?;
            Ok(DocId(number as u32))
        }
        Err(fault) => Err(fault),
    }
}

/// The word of `search`.
fn search(alloc: Global, words: &[String]) -> Result<Word, UsageFault>
    requires { AreTexts (map string_bytes words.now) }
    ensures value { Gives result (search_of (map string_bytes words.now)) }
    ensures word { IfOk result IsWord }
{
    match one_word(alloc, "search", words) {
        Ok(text) => searched(text),
        Err(fault) => Err(fault),
    }
}

/// A command that has no words of its own.
fn nothing(alloc: Global, command: &str, words: &[String], line: Line) -> Result<Line, UsageFault>
    requires range { IsLine line }
    requires texts { AreTexts (map string_bytes words.now) }
    ensures value { Gives result (nothing_or line (map string_bytes words.now)) }
    ensures range { IfOk result IsLine }
{
    match no_words(alloc, command, words) {
        Ok(()) => Ok(line),
        Err(fault) => Err(fault),
    }
}

/// What the words behind a command say.
fn line(alloc: Global, name: Name, words: &[String]) -> Result<Line, UsageFault>
    requires { AreTexts (map string_bytes words.now) }
    ensures value { Gives result (line_with name (map string_bytes words.now)) }
    ensures range { IfOk result IsLine }
{
    match name {
        Name::Init => init_line(alloc, words),
        Name::Post => {
            let doc = doc(alloc, "post", words)?;
            Ok(Line::Post { doc })
        }
        Name::Remove => {
            let doc = doc(alloc, "remove", words)?;
            Ok(Line::Remove { doc })
        }
        Name::Search => {
            let word = search(alloc, words)?;
            Ok(Line::Search { word })
        }
        Name::Resume => nothing(alloc, "resume", words, Line::Resume),
        Name::Latest => nothing(alloc, "latest", words, Line::Latest),
        Name::Rotate => nothing(alloc, "rotate", words, Line::Rotate),
    }
}

/// The line that the words say, or the first thing that is wrong with them.
pub fn read_line(alloc: Global, words: &[String]) -> Result<Line, UsageFault>
    ensures value { Gives result (line_of (map string_bytes words.now)) }
    ensures range { IfOk result IsLine }
{
    match words {
        [] => Err(UsageFault::NoCommand),
        [command, rest @ ..] => match named(command.as_str()) {
            None => Err(UsageFault::Unknown),
            Some(name) => {
                if has_barred(rest) {
                    return Err(UsageFault::Words);
                }
                line(alloc, name, rest)
            }
        },
    }
}
