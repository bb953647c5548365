//! Bytes written whole.
ghost use Rattle.exit_status.specs.Pieces.{Sent, Wrote};
ghost use Rattle.std.specs.Prelude.{◌≡◌, is_err};

use crate::closed::Closed;
use io_edge::{Failed, Sink};

/// Writes the bytes, or a front of them where a write failed.
pub fn write_all<O: Sink>(output: &mut O, bytes: &[u8]) -> Result<(), Failed>
    ensures wrote { Wrote (O.holds output.old) (O.holds output.new)
        (O.write_faults output.old) (O.write_faults output.new) bytes.now (is_err result) }
    ensures besides { O.besides_held output.new ≡ O.besides_held output.old }
{
    let mut rest = bytes;
    while !rest.is_empty() {
        let n = output.write(rest)?;
        rest = &rest[n..];
    }
    Ok(())
}

/// Writes the bytes on a connection.
pub fn send<O: Sink>(output: &mut O, bytes: &[u8]) -> Result<(), Closed>
    ensures sent { Sent result (O.holds output.old) (O.holds output.new)
        (O.write_faults output.old) (O.write_faults output.new) bytes.now }
{
    match write_all(output, bytes) {
        Ok(()) => Ok(()),
        Err(_) => Err(Closed::WriteFault),
    }
}
