//! What is known of classes, edges and predicates at elements, in one evaluation for every kind of
//! knowledge: a graph, of which each fact is known, or objects of which some are not.
#![tactic(auto)]

mod assignment;
mod claim;
mod closures;
mod elements;
mod evaluate;
mod gather;
mod knowledge;
mod literals;
mod next;
mod search;
mod stage;
mod steps;

pub use closures::Closures;
pub use elements::Elements;
pub use evaluate::value;
pub use knowledge::Knowledge;
pub use literals::literal;
pub use search::{TupleTest, first_tuple, values};
