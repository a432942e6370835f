//! What the words of a command line ask for.

use crate::fault::Fault;
use crate::table::{ROWS, Row};
use std::alloc::Global;

/// What is to be done.
#[derive(Drop)]
pub enum Line {
    Help,
    Version,
    /// To do each of these once, and print its checksum.
    Check(Vec<Row>),
    /// To time these.
    Time(Vec<Row>),
}

/// What the words ask for.
pub fn read_line(alloc: Global, words: &[String]) -> Result<Line, Fault> {
    let Some((first, names)) = words.split_first() else {
        return Err(Fault::Words);
    };
    match first.as_str() {
        "--help" if names.is_empty() => Ok(Line::Help),
        "--version" if names.is_empty() => Ok(Line::Version),
        "check" => Ok(Line::Check(named(alloc, names)?)),
        "time" => Ok(Line::Time(named(alloc, names)?)),
        _ => Err(Fault::Words),
    }
}

/// The rows of these names, or all rows where there is no name.
fn named(alloc: Global, names: &[String]) -> Result<Vec<Row>, Fault> {
    let mut found = Vec::new(alloc);
    if names.is_empty() {
        found.extend_from_slice(&ROWS)?;
    }
    for name in names {
        found.push(row_of(name.as_str())?)?;
    }
    Ok(found)
}

/// The row of a name.
fn row_of(name: &str) -> Result<Row, Fault> {
    for row in &ROWS {
        if row.name == name {
            return Ok(*row);
        }
    }
    Err(Fault::Words)
}
