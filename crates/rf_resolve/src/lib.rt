//! Names: from the statement tree of a text to the problem that it stands for.
//!
//! `resolve` goes three ways, one after another:
//!
//! 1. What is declared, and what names stand for: `rf_names`.
//! 2. Rules. `first_fault` asks each rule of names in turn (`rf_name_rules`, `rf_structure_rules`,
//!    `rf_clause_rules`), those of limits last (`rf_limits`). Of the first that is broken the least
//!    offset is the fault. Their order is `specs/Fault`.
//! 3. Building. Where no rule is broken, `rf_build` makes the problem: that its parts fit is proved, so
//!    there always is one. (`specs/Resolved` of `rf_build`)
//!
//! A fault and a problem exclude each other, and a tree has exactly one of the two: memory is the
//! only other reason why there is none. The names and numbers of the tree are to be those of a text
//! (`specs/Readable`): a tree made otherwise may hold a name that no problem has.
#![tactic(auto)]

mod error;
mod faults;
mod resolving;

pub use error::NameError;
pub use resolving::resolve;
pub use rf_limits::LimitKind;
