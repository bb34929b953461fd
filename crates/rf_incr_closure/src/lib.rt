//! Which vertices can be reached from which, kept in a store: for each vertex a row, under a tag.
#![tactic(auto)]

mod blocks;
mod laws;
mod rows;

pub use laws::{other_rows_law, other_tags_law, row_keys_law, tag_keys_law};
pub use rows::Rows;
