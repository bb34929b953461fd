//! States with versions, of which what is read often stands in lists.
#![tactic(auto)]

mod adding;
mod cells;
mod lists;
mod mirrored;
mod objects;
mod reading;

pub use mirrored::Mirrored;
