//! The values behind a command: each is checked, in one order.
ghost use Rattle.std.specs.Prelude.{◌≡◌, ◌≤◌, IfOk, length, option_map};
ghost use Rattle.dory_cli.specs.Values.{init_values_of, master_of, number_at, searched_of, serial_of};
ghost use Rattle.dory_base.specs.Dims.{IsDims};
ghost use Rattle.dory_base.specs.Words.{IsWord};
ghost use Rattle.dory_cli.specs.Commands.{view};
ghost use Rattle.dory_cli.specs.Line.{IsLine};

use crate::fault::{NumberField, UsageFault};
use crate::init::InitTexts;
use crate::line::Line;
use dory_base::{FolderId, MemberId, Shape, Word};
use dory_io::number;
use hex::FromHex;

/// The number that a text writes, or that this number is wrong.
pub fn number_in(field: NumberField, text: &str, least: u64, most: u64) -> Result<u64, UsageFault>
    ensures value { result ≡ number_at field least most text.now }
    ensures range { IfOk result (λ n. (least ≤ n) × (n ≤ most)) }
{
    match number(text, least, most) {
        Some(n) => Ok(n),
        None => Err(UsageFault::Number { field }),
    }
}

/// The master key, written as 64 hexadecimal digits.
fn master(text: &str) -> Result<[u8; 32], UsageFault>
    ensures value { result ≡ master_of text.now }
    ensures size { IfOk result (λ bytes. length bytes ≡ 32) }
{
    match <[u8; 32] as FromHex>::from_hex(text) {
        Ok(master) => Ok(master),
        Err(_) => Err(UsageFault::Master),
    }
}

/// The first serial, 1 where none is given.
fn serial(text: Option<&str>) -> Result<u64, UsageFault>
    ensures value { result ≡ serial_of (option_map (λ s. s.now) text.entry) }
    ensures range { IfOk result (λ n. (1 ≤ n) × (n ≤ 18446744073709551615)) }
{
    match text {
        None => Ok(1),
        Some(text) => number_in(NumberField::Serial, text, 1, u64::MAX),
    }
}

fn shape(depth: u8, probes: u8) -> Shape
    requires { IsDims (record { depth = depth; probes = probes }) }
    ensures { result ≡ record { depth = depth; probes = probes } }
{
    match Shape::new(depth, probes) {
        Some(shape) => shape,
        None => unreachable!(),
    }
}

/// The line that the texts say, or the first bad value.
#[tactic(auto, unfolding(crate::specs::Values::init_values_of))]
pub fn init_values(texts: &InitTexts<'_>) -> Result<Line, UsageFault>
    ensures value { result ≡ init_values_of (view texts.now) }
    ensures range { IfOk result IsLine }
{
    let folder = number_in(NumberField::Folder, texts.folder, 0, u32::MAX as u64)?;
    let member = number_in(NumberField::Member, texts.member, 0, 63)?;
    let depth = number_in(NumberField::Depth, texts.depth, 8, 11)?;
    let probes = number_in(NumberField::Probes, texts.probes, 1, 8)?;
    let master = master(texts.master)?;
    let serial = serial(texts.serial)?;
    Ok(Line::Init {
        folder: FolderId(folder as u32),
        member: MemberId(member as u32),
        shape: shape(depth as u8, probes as u8),
        master,
        serial,
    })
}

/// The word to search for.
pub fn searched(text: &str) -> Result<Word, UsageFault>
    ensures value { result ≡ searched_of text.now }
    ensures word { IfOk result IsWord }
{
    match Word::read(text.as_bytes()) {
        Ok(word) => Ok(word),
        Err(_) => Err(UsageFault::Word),
    }
}
