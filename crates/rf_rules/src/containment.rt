//! The rules of containment.

mod contained;
mod cycles;
mod excluded;
mod possible;
mod references;
mod steps;

pub use contained::{
    contain_count, contain_count_row, must_contain, must_contain_row, no_container,
};
pub use cycles::{acyclic, acyclic_row};
pub use excluded::{alone, alone_row, one_container, one_container_row};
pub use possible::{Containers, possible_containers};
pub use references::contained_classes;
