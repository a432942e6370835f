//! A command is copied for the member that begins it, where it fits.
ghost use Rattle.std.specs.Prelude.{◌≡◌, IfOk};
ghost use Rattle.dory_run.specs.Happening.{fits, is_doc};

use dory_base::{DocId, NoMemory, Shape};
use dory_member::Command;
use std::alloc::Global;

/// Whether a document's number has four bytes, as each has.
fn is_doc(doc: DocId) -> bool
    ensures { result ≡ is_doc doc.0 }
{
    u64::from(doc.0) < 4_294_967_296
}

/// Whether the row of a post has a bit for each column.
pub fn fits(shape: Shape, command: &Command) -> bool
    ensures { result ≡ fits shape command.now }
{
    match command {
        Command::Post { doc, row } => row.len() == shape.columns() && is_doc(*doc),
        Command::Remove { doc } => is_doc(*doc),
        Command::Search { .. } => true,
        Command::Resume => true,
        Command::Latest => true,
        Command::Rotate => true,
    }
}

/// An equal command.
pub fn copied(alloc: Global, command: &Command) -> Result<Command, NoMemory>
    ensures { IfOk result (λ c. c ≡ command.now) }
{
    match command {
        Command::Post { doc, row } => {
            let row = row.copy(alloc)?;
            Ok(Command::Post { doc: *doc, row })
        }
        Command::Remove { doc } => Ok(Command::Remove { doc: *doc }),
        Command::Search { word } => Ok(Command::Search { word: *word }),
        Command::Resume => Ok(Command::Resume),
        Command::Latest => Ok(Command::Latest),
        Command::Rotate => Ok(Command::Rotate),
    }
}
