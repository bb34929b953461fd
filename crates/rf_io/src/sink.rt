ghost use Rattle.std.specs.Prelude.{◌<◌, ◌≤◌, length, take, IfOk, OnErr};
ghost use Rattle.rf_io.specs.Causes.{HasCause};
ghost use Rattle.rf_io.specs.Sink.{Appends, IsUntouched, SinkState};

use crate::Failed;

/// What takes bytes.
pub trait Sink {
    /// The bytes written so far, where they are told, and the number of writes that failed.
    ghost state: { Self → SinkState };

    /// Appends the first bytes of `piece`, at least one of them, and gives their number.
    fn write(&mut self, piece: &[u8]) -> Result<usize, Failed>
        requires { 0 < length piece.now }
        ensures some { IfOk result (λ n. 0 < n) }
        ensures bound { IfOk result (λ n. n ≤ length piece.now) }
        ensures bytes { IfOk result (λ n. Appends (state self.old) (state self.new) (take n piece.now)) }
        ensures err { OnErr result (IsUntouched (state self.old) (state self.new)) }
        ensures cause { HasCause (state self.old).faults (state self.new).faults result };
}
