//! Writing all of a text.
ghost use Rattle.std.specs.Prelude.{◌≡◌, IsErr, OnOk, OnErr};
ghost use Rattle.std.specs.Io.KnownBytes.{Appends};
ghost use Rattle.dory_io.specs.Causes.{HasCause};
ghost use Rattle.dory_io.specs.Output.{AppendsPart, AppendsLess};

use crate::sink::Sink;
use dory_base::Failed;

/// Writes all the bytes, or fails where the sink does.
pub fn write_all<O: Sink>(out: &mut O, bytes: &[u8]) -> Result<(), Failed>
    ensures ok { OnOk result (Appends (O.written out.old) (O.written out.new) bytes.now) }
    ensures part { AppendsPart (O.written out.old) (O.written out.new) bytes.now }
    // A failure leaves at least the last byte unwritten.
    ensures less { OnErr result (AppendsLess (O.written out.old) (O.written out.new) bytes.now) }
    ensures cause { HasCause (O.faults out.old) (O.faults out.new) (IsErr result) }
{
    let mut at = 0;
    while at < bytes.len() {
        at += out.write(&bytes[at..])?;
    }
    Ok(())
}
