//! The propagator of counts and types: the least of their rules that fires.
#![tactic(auto)]

mod kinds;
mod pending;
mod propagate;
mod touching;

pub use pending::Pending;
pub use propagate::{least, next};
pub use touching::touch;
