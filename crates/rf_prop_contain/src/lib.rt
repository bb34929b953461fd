//! The propagator of containment: the least of its rules that fires.
#![tactic(auto)]

mod acyclic;
mod concerns;
mod kinds;
mod pending;
mod propagate;
mod touching;

pub use pending::Pending;
pub use propagate::{least, next};
pub use touching::touch;
