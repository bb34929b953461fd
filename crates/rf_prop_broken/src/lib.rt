//! The propagator of predicates: the least of their rules that fires.
#![tactic(auto)]

mod asserted;
mod broken;
mod choice;
mod dependence;
mod edge;
mod forced;
mod instances;
mod kinds;
mod pending;
mod propagate;
mod touching;

pub use pending::Pending;
pub use propagate::{least, next};
pub use touching::touch;
