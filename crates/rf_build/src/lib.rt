//! The problem that declarations stand for.
//!
//! `build` makes each list of the problem of the declarations of its kind in order, and each number that
//! of what a name stands for (`specs/Resolved`). Bodies are the one kind that takes more: an argument is
//! an atom's object or a variable (`terms`), variables are numbered as they come (`variables`), and each
//! is quantified over its clause or inside the one negation that names it (`entries`).
//!
//! No rule is asked here. Where a name stands for nothing, or for several things, something stands in
//! its place, and so the lists need not be the parts of a problem: then there is none.
#![tactic(auto)]

mod assertions;
mod classes;
mod counts;
mod entries;
mod objects;
mod predicates;
mod problem;
mod references;
mod scopes;
mod terms;
mod variables;

pub use problem::build;
