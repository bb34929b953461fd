//! A resolved problem: its classes, references, predicates, objects, assertions and scopes, each
//! number the place of what it stands for.
//!
//! The type keeps what every problem is: names are names, numbers stand for what is there, no class
//! extends itself, and there is one object for the new nodes of each class that has such nodes. So
//! whoever is lent a problem may rely on that.
#![tactic(auto)]

mod asserted;
mod assertion;
mod assertions;
mod class;
mod class_order;
mod class_rows;
mod classes;
mod heard;
mod key;
mod laws;
mod make;
mod object;
mod parts;
mod pattern;
mod predicate;
mod problem;
mod reference;
mod scope;
mod stock;
mod symbol;
mod table;

pub use assertion::Assertion;
pub use assertions::Assertions;
pub use class::Class;
pub use classes::Classes;
pub use heard::Heard;
pub use laws::{below_law, depth_law, following_law, meaning_law, problem_law};
pub use object::{ObjectDecl, ObjectKind, ObjectName};
pub use predicate::{Clause, Literal, Predicate, Term};
pub use problem::Problem;
pub use reference::{RefKind, Reference};
pub use scope::Scope;
pub use stock::new_objects;
pub use symbol::Symbol;
