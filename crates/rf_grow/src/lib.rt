//! Problems of any size, each made from a number.
//!
//! The problem of n has one whole with n parts in a row, and one graph alone satisfies it.
#![tactic(auto)]

mod assertions;
mod declared;
mod laws;
mod make;
mod objects;

pub use laws::one_problem_law;
pub use make::grown;
