//! The lines of a run, which contracts see as a list.
ghost use Rattle.std.specs.Prelude.{◌≡◌, ◌++◌, ◌∷◌, [], OnOk};

use dory_base::NoMemory;
use dory_run::WorldLine;
use std::alloc::Global;
use std::marker::Model;

/// A line for each event that was played.
#[derive(Debug, Drop)]
pub struct Lines {
    lines: Vec<WorldLine>,
}

impl Model for Lines {
    ghost use Rattle.std.specs.Prelude.{List};
    ghost use Rattle.dory_run.specs.declared.line.WorldLine.{WorldLine};

    ghost Value = { List WorldLine };

    ghost view = { λ l. l.lines.items };
}

impl Lines {
    /// No lines.
    pub fn new(alloc: Global) -> Lines
        ensures { result ≡ [] }
    {
        Lines {
            lines: Vec::new(alloc),
        }
    }

    /// One more line.
    pub fn push(&mut self, line: WorldLine) -> Result<(), NoMemory>
        ensures { OnOk result (self.new ≡ self.old ++ line ∷ []) }
    {
        self.lines.push(line)?;
        Ok(())
    }

    /// The lines.
    pub fn items(&self) -> &[WorldLine]
        ensures { result.now ≡ self.now }
    {
        &self.lines
    }
}
