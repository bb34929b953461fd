ghost use Rattle.std.specs.Prelude.{OnOk, OnErr};
ghost use Rattle.rf_io.specs.Causes.{HasCause};
ghost use Rattle.rf_io.specs.Sink.{Appends, AppendsPrefix};

use crate::{Failed, Sink};

/// Writes all the bytes, handing over the whole rest each time. Where a write fails, a proper
/// prefix of the bytes was written.
pub fn write_all<S: Sink>(sink: &mut S, bytes: &[u8]) -> Result<(), Failed>
    ensures ok { OnOk result (Appends (S.state sink.old) (S.state sink.new) bytes.now) }
    ensures err { OnErr result (AppendsPrefix (S.state sink.old) (S.state sink.new) bytes.now) }
    ensures cause { HasCause (S.state sink.old).faults (S.state sink.new).faults result }
{
    let mut written = 0;
    while written < bytes.len() {
        written += sink.write(&bytes[written..])?;
    }
    Ok(())
}
