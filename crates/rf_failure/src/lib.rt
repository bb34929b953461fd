//! Why a call has no result: what it was given has a fault, or memory ran out. Calls that read,
//! parse or resolve answer so, and one record says what their answers mean.
#![tactic(auto)]

ghost use Rattle.std.specs.Prelude.{◌≡◌};
ghost use Rattle.rf_failure.specs.declared.Failure.TheVariants.{Memory};

use std::alloc::{AllocError, AllocFailed};

/// Why a call has no result.
///
/// That what was given has a fault is said of it exactly (`specs/Answers`). Running out of memory is
/// no fault of it: nothing follows from that answer.
#[derive(Clone, Copy, Debug, PartialEq, Eq)]
pub enum Failure<F> {
    /// What was given has this fault.
    Fault(F),
    /// Memory ran out.
    Memory,
}

impl<F> From<AllocError> for Failure<F> {
    ghost from_gives = { λ _ e. e ≡ Memory };

    fn from(_: AllocError) -> Failure<F> {
        Failure::Memory
    }
}

impl<F, T: Drop> From<AllocFailed<T>> for Failure<F> {
    ghost from_gives = { λ _ e. e ≡ Memory };

    fn from(_: AllocFailed<T>) -> Failure<F> {
        Failure::Memory
    }
}
