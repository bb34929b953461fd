//! Small values that every part of the generator speaks of: what is known of a fact, how many nodes
//! there may be, sets of classes, and the few places that a fact speaks of. All are `Copy`, and no
//! call takes memory.
#![tactic(auto)]

mod class_set;
mod count;
mod objects;
mod truth;
mod tuple;

pub use class_set::{ClassSet, same_members_law};
pub use count::{Count, count_law};
pub use objects::Objects;
pub use truth::{Truth, keeps_law, merge_law, order_law, pair_law};
pub use tuple::Tuple;
