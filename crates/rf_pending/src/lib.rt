//! Which rules of a family may fire: marks of rows, and which of these a change touches.
#![tactic(auto)]

mod change;
mod edges;
mod marks;
mod rows;
mod standing;
mod touching;

pub use change::Change;
pub use edges::{EdgeRows, least_of_edges};
pub use marks::Marks;
pub use rows::{Rows, least};
pub use standing::Standing;
pub use touching::{touch_edges, touch_objects};
