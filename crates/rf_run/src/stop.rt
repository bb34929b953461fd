ghost use Rattle.std.specs.Prelude.{◌≡◌};
ghost use Rattle.rf_run.specs.Stages.{end_of_stop};
ghost use Rattle.rf_run.specs.declared.end.Cut.TheVariants.{Memory};
ghost use Rattle.rf_run.specs.declared.stop.Stop.TheVariants.{Cut as OutOfMemory};

use crate::Refusal;
use crate::end::{Cut, End};
use std::alloc::AllocError;

/// Why a stage of a run has no result.
#[derive(Clone, Copy, Debug, PartialEq, Eq)]
pub enum Stop {
    Refused(Refusal),
    Cut(Cut),
}

impl From<AllocError> for Stop {
    ghost from_gives = { λ _ e. e ≡ OutOfMemory Memory };

    fn from(_: AllocError) -> Stop {
        Stop::Cut(Cut::Memory)
    }
}

impl Stop {
    /// The end of the run.
    pub fn end(self) -> Result<End, Cut>
        ensures { result ≡ end_of_stop self }
    {
        match self {
            Stop::Refused(refusal) => Ok(End::Refused(refusal)),
            Stop::Cut(cut) => Err(cut),
        }
    }
}
