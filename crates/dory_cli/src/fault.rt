//! Why words are no command line, and how that is printed.
ghost use Rattle.std.specs.Prelude.{◌≡◌, Some};
ghost use Rattle.dory_cli.specs.Texts.{field_text, usage_text};
ghost use Rattle.dory_cli.specs.declared.fault.UsageFault.TheVariants.{NoMemory};

use std::alloc::AllocError;
use std::fmt;
use thiserror::Error;

/// Which number is wrong.
#[derive(Clone, Copy, Debug, PartialEq, Eq)]
pub enum NumberField {
    Folder,
    Member,
    Depth,
    Probes,
    Serial,
    Doc,
}

impl fmt::Display for NumberField {
    ghost output = { λ field. Some (field_text field) };

    fn fmt<W: fmt::Write>(&self, f: &mut fmt::Formatter<W>) -> fmt::Result {
        f.write_str(match self {
            NumberField::Folder => "folder",
            NumberField::Member => "member",
            NumberField::Depth => "depth",
            NumberField::Probes => "probes",
            NumberField::Serial => "serial",
            NumberField::Doc => "doc",
        })
    }
}

/// The first thing that is wrong with the words.
#[derive(Clone, Copy, Debug, PartialEq, Eq, Error)]
pub enum UsageFault {
    /// There are no words.
    NoCommand,
    /// The first word names no command.
    Unknown,
    /// The words behind the command aren't those that it takes.
    Words,
    /// A number isn't written as one, or is out of its range.
    Number { field: NumberField },
    /// The master key isn't 64 hexadecimal digits.
    Master,
    /// What is searched for isn't one word.
    Word,
    NoMemory,
}

impl fmt::Display for UsageFault {
    ghost output = { λ fault. Some (usage_text fault) };

    fn fmt<W: fmt::Write>(&self, f: &mut fmt::Formatter<W>) -> fmt::Result {
        match self {
            UsageFault::NoCommand => write!(f, "usage nocommand"),
            UsageFault::Unknown => write!(f, "usage unknown"),
            UsageFault::Words => write!(f, "usage words"),
            UsageFault::Number { field } => write!(f, "usage number {field}"),
            UsageFault::Master => write!(f, "usage master"),
            UsageFault::Word => write!(f, "usage word"),
            UsageFault::NoMemory => write!(f, "nomemory"),
        }
    }
}

impl From<AllocError> for UsageFault {
    ghost from_gives = { λ _ e. e ≡ NoMemory };

    fn from(_error: AllocError) -> UsageFault {
        UsageFault::NoMemory
    }
}
