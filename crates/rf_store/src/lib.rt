//! A persistent ordered map: a current map and saved versions of it, all in one table of shared rows.
//!
//! The table only grows, until `prune` cuts it. A row is a node of a balanced search tree and names
//! its sides by rows before it, so a version is no more than the row of its root and the number of
//! rows that stood at its commit.
#![tactic(auto)]

mod compare;
mod store;
mod table;
mod tree;

pub use compare::{Key, Value};
pub use store::Store;
