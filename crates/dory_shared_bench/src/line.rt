//! What the words of a command line ask for.

use crate::fault::Fault;

/// What is to be done.
#[derive(Clone, Copy)]
pub enum Line {
    Help,
    Version,
    /// All of it at a small size.
    Check,
    /// A full folder, timed.
    Full,
    /// As many updates as a history may have.
    History,
    /// 100,000 updates of 64 documents.
    Replaced,
    /// 1,000 of them.
    Few,
}

/// What the words ask for.
pub fn read_line(words: &[String]) -> Result<Line, Fault> {
    let Some((first, rest)) = words.split_first() else {
        return Ok(Line::Check);
    };
    let Some((second, rest)) = rest.split_first() else {
        return match first.as_str() {
            "--help" => Ok(Line::Help),
            "--version" => Ok(Line::Version),
            "time" => Ok(Line::Full),
            _ => Err(Fault::Words),
        };
    };
    if !rest.is_empty() || first.as_str() != "time" {
        return Err(Fault::Words);
    }
    match second.as_str() {
        "history" => Ok(Line::History),
        "replaced" => Ok(Line::Replaced),
        "few" => Ok(Line::Few),
        _ => Err(Fault::Words),
    }
}
