//! Writers of numbers.
ghost use Rattle.std.specs.Prelude.{◌≡◌, ◌++◌, OnOk};
ghost use Rattle.std.specs.Int.{w16, to_be_bytes};
ghost use Rattle.dory_fields.specs.Bytes.{eight, four};

use dory_base::NoMemory;

/// Adds a number of two bytes.
pub fn put_u16(out: &mut Vec<u8>, n: u16) -> Result<(), NoMemory>
    ensures { OnOk result (out.new.items ≡ out.old.items ++ to_be_bytes w16 n) }
{
    out.extend_from_slice(&n.to_be_bytes())?;
    Ok(())
}

/// Adds a number of four bytes.
pub fn put_u32(out: &mut Vec<u8>, n: u32) -> Result<(), NoMemory>
    ensures { OnOk result (out.new.items ≡ out.old.items ++ four n) }
{
    out.extend_from_slice(&n.to_be_bytes())?;
    Ok(())
}

/// Adds a number of eight bytes.
pub fn put_u64(out: &mut Vec<u8>, n: u64) -> Result<(), NoMemory>
    ensures { OnOk result (out.new.items ≡ out.old.items ++ eight n) }
{
    out.extend_from_slice(&n.to_be_bytes())?;
    Ok(())
}
