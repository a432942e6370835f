//! The words of a server's command line are read: the role, the address, the seats, and the folders.
ghost use Rattle.std.specs.Prelude.{◌≡◌, ◌≤◌, IfOk, IfSome, drop, map, string_bytes, slice_get, option_map, Ok, Some};
ghost use Rattle.dory_server.specs.Folder.{folder_of, retained_of};
ghost use Rattle.dory_server.specs.Line.{Gives, server_line_of, named_role, seats_of, some_folders, word_at};
ghost use Rattle.dory_io.specs.Address.{address_of, between_colons as parted, number_at};

use dory_base::{FolderId, Shape, Side};
use dory_domain::{Config, FolderConfig, FolderList};
use dory_io::{Address, between_colons, number};
use std::alloc::Global;

/// What a server is to serve, and where.
#[derive(Debug, Drop)]
pub struct ServerLine {
    pub config: Config,
    pub address: Address,
}

/// Why words are no command line of a server.
#[derive(Clone, Copy, Debug, PartialEq, Eq)]
pub enum ServerWords {
    /// The word at this place, counted from 0, is the first that is absent or not of its form.
    At { at: usize },
    NoMemory,
}

/// The word at a place.
pub fn word(words: &[String], at: usize) -> Option<&str>
    ensures { option_map (λ word. word.now) result ≡ slice_get (map string_bytes words.now) at }
{
    match words.get(at) {
        Some(word) => Some(word.as_str()),
        None => None,
    }
}

/// The role that a word names.
fn named(word: &str) -> Option<Side>
    ensures { result ≡ named_role word.now }
{
    if word == "lead" {
        Some(Side::Lead)
    } else if word == "follow" {
        Some(Side::Follow)
    } else {
        None
    }
}

/// The role, which stands first.
fn role(words: &[String]) -> Result<Side, ServerWords>
    ensures { result ≡ word_at 0 named_role (map string_bytes words.now) }
{
    match word(words, 0) {
        Some(word) => named(word).ok_or(ServerWords::At { at: 0 }),
        None => Err(ServerWords::At { at: 0 }),
    }
}

/// The address, which stands second.
fn address(words: &[String]) -> Result<Address, ServerWords>
    ensures { result ≡ word_at 1 address_of (map string_bytes words.now) }
{
    match word(words, 1) {
        Some(word) => Address::read(word).ok_or(ServerWords::At { at: 1 }),
        None => Err(ServerWords::At { at: 1 }),
    }
}

/// The number of seats that a word writes.
fn number_of_seats(word: &str) -> Option<u32>
    ensures { result ≡ seats_of word.now }
{
    let seats = number(word, 0, u32::MAX as u64)?;
    Some(seats as u32)
}

/// The number of seats, which stands third.
fn seats(words: &[String]) -> Result<u32, ServerWords>
    ensures { result ≡ word_at 2 seats_of (map string_bytes words.now) }
{
    match word(words, 2) {
        Some(word) => number_of_seats(word).ok_or(ServerWords::At { at: 2 }),
        None => Err(ServerWords::At { at: 2 }),
    }
}

/// The number at a place between the colons.
pub fn number_between(word: &str, place: usize, least: u64, most: u64) -> Option<u64>
    ensures value { result ≡ number_at place least most (parted word.now) }
    ensures range { IfSome result (λ n. (least ≤ n) × (n ≤ most)) }
{
    number(between_colons(word, place)?, least, most)
}

/// How many versions are retained.
fn retained(word: &str) -> Option<u32>
    ensures { result ≡ retained_of (slice_get (parted word.now) 3) }
{
    match between_colons(word, 3) {
        Some(text) => {
            let retained = number(text, 0, u32::MAX as u64)?;
            Some(retained as u32)
        }
        None => Some(64),
    }
}

/// The folder that a word names.
fn folder(word: &str) -> Option<FolderConfig>
    ensures { result ≡ folder_of word.now }
{
    if between_colons(word, 4).is_some() {
        return None;
    }
    let folder = number_between(word, 0, 0, u32::MAX as u64)?;
    let depth = number_between(word, 1, 8, 11)?;
    let probes = number_between(word, 2, 1, 8)?;
    let retained = retained(word)?;
    let shape = Shape::new(depth as u8, probes as u8)?;
    Some(FolderConfig {
        folder: FolderId(folder as u32),
        shape,
        retained,
    })
}

/// The folders, of which the first stands fourth.
fn folders(alloc: Global, words: &[String]) -> Result<FolderList, ServerWords>
    ensures { Gives result (some_folders 3 (map string_bytes words.now)) }
{
    if words.is_empty() {
        return Err(ServerWords::At { at: 3 });
    }
    let mut folders = Vec::new(alloc);
    for (place, word) in words.iter().enumerate() {
        match folder(word.as_str()) {
            Some(folder) => match folders.push(folder) {
                Ok(()) => {}
                Err(_) => return Err(ServerWords::NoMemory),
            },
            None => return Err(ServerWords::At { at: 3 + place }),
        }
    }
    Ok(FolderList::of(folders))
}

/// The words that name folders.
#[tactic(auto, using(crate::proofs::FolderWords::no_folders, crate::proofs::FolderWords::later_words))]
pub fn behind_seats(words: &[String]) -> &[String]
    ensures { map string_bytes result.now ≡ drop 3 (map string_bytes words.now) }
{
    if words.len() <= 3 {
        return &[];
    }
    &words[3..]
}

/// The line that the words say, or the first word that is absent or not of its form.
#[tactic(auto, unfolding(crate::specs::Line::server_line_of))]
pub fn read_server(alloc: Global, words: &[String]) -> Result<ServerLine, ServerWords>
    ensures { Gives result (server_line_of (map string_bytes words.now)) }
{
    let role = role(words)?;
    let address = address(words)?;
    let seats = seats(words)?;
    let folders = folders(alloc, behind_seats(words))?;
    Ok(ServerLine {
        config: Config {
            role,
            folders,
            seats,
        },
        address,
    })
}
