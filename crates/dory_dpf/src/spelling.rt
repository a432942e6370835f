//! A key's bytes.
ghost use Rattle.std.specs.Prelude.{◌≡◌, ◌++◌, IfOk, Ok, OnOk};
ghost use Rattle.std.specs.List.{flat_map};
ghost use Rattle.dory_dpf.specs.PointKey.{form_of, last_bytes};
ghost use Rattle.dory_dpf.specs.KeyBytes.{bytes_of_key, control_byte, correction_bytes, key_of};

use crate::key::Key;
use crate::tree::Correction;
use dory_base::NoMemory;
use std::alloc::Global;

impl Key {
    ghost use Rattle.dory_dpf.specs.PointKey.{form_of};
    ghost use Rattle.dory_dpf.specs.KeyBytes.{bytes_of_key, key_of};

    /// The bytes of the key.
    pub fn encode(&self, alloc: Global) -> Result<Vec<u8>, NoMemory>
        ensures bytes { IfOk result (λ bytes. bytes.items ≡ bytes_of_key self.now) }
        ensures read_back { IfOk result (λ bytes. key_of (form_of self.now) self.now.depth bytes.items ≡ Ok self.now) }
    {
        let mut out = Vec::new(alloc);
        self.put(&mut out)?;
        Ok(out)
    }

    /// Adds the bytes of the key at the end of what is written so far.
    pub fn put(&self, out: &mut Vec<u8>) -> Result<(), NoMemory>
        ensures bytes { OnOk result (out.new.items ≡ out.old.items ++ bytes_of_key self.now) }
        ensures read_back { OnOk result (key_of (form_of self.now) self.now.depth (bytes_of_key self.now) ≡ Ok self.now) }
    {
        out.push(self.depth())?;
        out.push(self.party())?;
        out.extend_from_slice(self.seed())?;
        put_corrections(out, self.corrections())?;
        put_last(out, self)?;
        Ok(())
    }
}

fn put_corrections(out: &mut Vec<u8>, corrections: &[Correction]) -> Result<(), NoMemory>
    ensures { OnOk result (out.new.items ≡ out.old.items ++ flat_map correction_bytes corrections.now) }
{
    for correction in corrections {
        put_correction(out, correction)?;
    }
    Ok(())
}

fn put_correction(out: &mut Vec<u8>, correction: &Correction) -> Result<(), NoMemory>
    ensures { OnOk result (out.new.items ≡ out.old.items ++ correction_bytes correction.now) }
{
    out.extend_from_slice(&correction.seed)?;
    out.push(control_byte(correction.left_bit, correction.right_bit))?;
    Ok(())
}

/// The left bit lowest, the right bit above it.
fn control_byte(left: bool, right: bool) -> u8
    ensures { result ≡ control_byte left right }
{
    let low = if left { 1 } else { 0 };
    let high = if right { 2 } else { 0 };
    low + high
}

fn put_last(out: &mut Vec<u8>, key: &Key) -> Result<(), NoMemory>
    ensures { OnOk result (out.new.items ≡ out.old.items ++ last_bytes key.now.last) }
{
    match key.last() {
        None => Ok(()),
        Some(word) => {
            out.extend_from_slice(word)?;
            Ok(())
        }
    }
}
