//! The propagator of numbers of edges: the least of their rules that fires.
#![tactic(auto)]

mod candidates;
mod ends;
mod kinds;
mod pending;
mod propagate;
mod touching;

pub use pending::Pending;
pub use propagate::{least, next};
pub use touching::touch;
