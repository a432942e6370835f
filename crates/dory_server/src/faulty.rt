//! What is wrong with which word, in words that a person reads: a second line beside the end's own.
ghost use Rattle.std.specs.Prelude.{◌≡◌, Some, map, string_bytes, option_map};
ghost use Rattle.dory_server.specs.Faulty.{fault_at, folder_word, parts_fault_of, word_fault_of, word_fault_text, word_name, wrong_word_of};
ghost use Rattle.dory_io.specs.Address.{between_colons as parted};

use crate::end::ServerEnd;
use crate::line::{behind_seats, number_between, word};
use dory_domain::ConfigFault;
use dory_io::between_colons;
use std::fmt;

/// What a word should be, and isn't.
#[derive(Clone, Copy, Debug, PartialEq, Eq)]
pub enum WordFault {
    Role,
    Address,
    Seats,
    /// A folder's word is absent, or doesn't have three or four parts.
    Parts,
    /// The first part isn't a folder's number.
    Number,
    Depth,
    Probes,
    Retained,
    /// The folder stands earlier too.
    Twice,
    /// There are more folders than a server has.
    Folders,
}

impl WordFault {
    /// Which word it is.
    pub fn name(&self) -> &'static str
        ensures { result.now ≡ word_name self.now }
    {
        match self {
            WordFault::Role => "role",
            WordFault::Address => "address",
            WordFault::Seats => "seats",
            WordFault::Parts
            | WordFault::Number
            | WordFault::Depth
            | WordFault::Probes
            | WordFault::Retained
            | WordFault::Twice
            | WordFault::Folders => "folder",
        }
    }
}

impl fmt::Display for WordFault {
    ghost output = { λ fault. Some (word_fault_text fault) };

    fn fmt<W: fmt::Write>(&self, f: &mut fmt::Formatter<W>) -> fmt::Result {
        f.write_str(match self {
            WordFault::Role => "a role is lead or follow",
            WordFault::Address => "an address is IPv4 a.b.c.d:port",
            WordFault::Seats => "seats are 1 to 32",
            WordFault::Parts => "a folder is ID:DEPTH:PROBES or ID:DEPTH:PROBES:RETAINED",
            WordFault::Number => "ID is 0 to 4294967295",
            WordFault::Depth => "depth is 8 to 11",
            WordFault::Probes => "probes are 1 to 8",
            WordFault::Retained => "retained versions are 1 to 256",
            WordFault::Twice => "this ID stands earlier too",
            WordFault::Folders => "folders are 1 to 8",
        })
    }
}

/// The first part of a folder's word that isn't of its form.
fn parts_fault(word: &str) -> WordFault
    ensures { result ≡ parts_fault_of (parted word.now) }
{
    if between_colons(word, 2).is_none() || between_colons(word, 4).is_some() {
        WordFault::Parts
    } else if number_between(word, 0, 0, u32::MAX as u64).is_none() {
        WordFault::Number
    } else if number_between(word, 1, 8, 11).is_none() {
        WordFault::Depth
    } else if number_between(word, 2, 1, 8).is_none() {
        WordFault::Probes
    } else {
        WordFault::Retained
    }
}

/// What is wrong with the word at a place.
fn fault_of_word(words: &[String], at: usize) -> WordFault
    ensures { result ≡ fault_at at (map string_bytes words.now) }
{
    if at == 0 {
        WordFault::Role
    } else if at == 1 {
        WordFault::Address
    } else if at == 2 {
        WordFault::Seats
    } else {
        match word(words, at) {
            Some(word) => parts_fault(word),
            None => WordFault::Parts,
        }
    }
}

/// What is wrong with the word that an end is about, where it is about one.
pub fn word_fault(words: &[String], end: &ServerEnd) -> Option<WordFault>
    ensures { result ≡ word_fault_of (map string_bytes words.now) end.now }
{
    match *end {
        ServerEnd::Usage { at } => Some(fault_of_word(words, at)),
        ServerEnd::BadConfig(ConfigFault::Folders { .. }) => Some(WordFault::Folders),
        ServerEnd::BadConfig(ConfigFault::FolderTwice { .. }) => Some(WordFault::Twice),
        ServerEnd::BadConfig(ConfigFault::Retained { .. }) => Some(WordFault::Retained),
        ServerEnd::BadConfig(ConfigFault::Seats { .. }) => Some(WordFault::Seats),
        ServerEnd::PlaceRefused
        | ServerEnd::NoThreads
        | ServerEnd::BindFault
        | ServerEnd::OutputFault
        | ServerEnd::Sessions
        | ServerEnd::AcceptFault
        | ServerEnd::NoMemory => None,
    }
}

/// The word of a folder.
fn folder(words: &[String], place: usize) -> Option<&str>
    ensures { option_map (λ word. word.now) result ≡ folder_word (map string_bytes words.now) place }
{
    word(behind_seats(words), place)
}

/// The word that an end is about, where it is there.
pub fn wrong_word<'a>(words: &'a [String], end: &ServerEnd) -> Option<&'a str>
    ensures { option_map (λ word. word.now) result ≡ wrong_word_of (map string_bytes words.now) end.now }
{
    match *end {
        ServerEnd::Usage { at } => word(words, at),
        ServerEnd::BadConfig(ConfigFault::Folders { .. }) => folder(words, 8),
        ServerEnd::BadConfig(ConfigFault::FolderTwice { place }) => folder(words, place),
        ServerEnd::BadConfig(ConfigFault::Retained { place, .. }) => folder(words, place),
        ServerEnd::BadConfig(ConfigFault::Seats { .. }) => word(words, 2),
        ServerEnd::PlaceRefused
        | ServerEnd::NoThreads
        | ServerEnd::BindFault
        | ServerEnd::OutputFault
        | ServerEnd::Sessions
        | ServerEnd::AcceptFault
        | ServerEnd::NoMemory => None,
    }
}
