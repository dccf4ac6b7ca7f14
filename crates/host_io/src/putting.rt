ghost use Rattle.std.specs.Prelude.{◌≡◌, ◌≤◌, OnOk, OnErr};
ghost use Rattle.host_io.specs.Count.{Rose};
ghost use Rattle.host_io.specs.Sink.{Appends, AppendsPrefix};

use super::failures::Failed;
use super::sinks::Sink;

/// Writes all the bytes. After a failure a prefix of them was written.
pub fn put<O: Sink>(sink: &mut O, bytes: &[u8]) -> Result<(), Failed>
    ensures all { OnOk result (Appends (O.written sink.old) bytes.now (O.written sink.new)) }
    ensures steady { OnOk result (O.faults sink.new ≡ O.faults sink.old) }
    ensures prefix { OnErr result (AppendsPrefix (O.written sink.old) bytes.now
        (O.written sink.new)) }
    ensures failed { OnErr result (Rose (O.faults sink.old) (O.faults sink.new)) }
    ensures count { O.faults sink.old ≤ O.faults sink.new }
{
    let mut written = 0;
    while written < bytes.len() {
        written += sink.write(&bytes[written..])?;
    }
    Ok(())
}
