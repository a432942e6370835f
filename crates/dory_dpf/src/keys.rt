//! The keys of a search.
ghost use Rattle.std.specs.Prelude.{◌≡◌, IfOk};

use crate::key::Key;
use dory_base::NoMemory;
use std::alloc::Global;
use std::marker::Model;

/// A key for each probe.
#[derive(Debug, Drop)]
pub struct Keys {
    keys: Vec<Key>,
}

impl Model for Keys {
    ghost use Rattle.std.specs.Prelude.{List};
    ghost use Rattle.dory_dpf.specs.PointKey.{PointKey};

    ghost Value = { List PointKey };

    ghost view = { λ a. a.keys.items };
}

impl Keys {
    pub fn of(keys: Vec<Key>) -> Keys
        ensures { result ≡ keys.items }
    {
        Keys { keys }
    }

    /// Equal keys.
    pub fn copy(&self, alloc: Global) -> Result<Keys, NoMemory>
        ensures { IfOk result (λ keys. keys ≡ self.now) }
    {
        let mut keys = Vec::new(alloc);
        for key in &self.keys {
            keys.push(key.again())?;
        }
        Ok(Keys { keys })
    }

    pub fn items(&self) -> &[Key]
        ensures { result.now ≡ self.now }
    {
        &self.keys
    }
}
