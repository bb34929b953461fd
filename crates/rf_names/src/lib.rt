//! What a problem text declares, and what its names stand for.
//!
//! 1. What is declared. `Declarations` gathers from the statement tree what it declares and states:
//!    classes and enums, references, predicates, items of `multi`, bounds of `scope`, assertions,
//!    atoms, and the names at which it speaks of objects; each list in the order of the text, lent
//!    from the tree. (`specs/Declarations`)
//! 2. What names stand for. `Names` keeps tables of these lists, in which the class, the predicate,
//!    the object, the enum of a literal or the references of a name are found without a scan, and for
//!    each assertion what its symbol stands for. (`specs/LookUp`) `Arguments` says which arguments of
//!    bodies are atoms; the others are variables. (`specs/Bodies`)
//! 3. What has no cycle. `has_ranks` shows by ranks of vertices that no walk leads back to its start,
//!    in time linear in the edges. (`specs/Ranks`)
//!
//! The rules that names keep are asked in the crates above, each of byte offsets where it is broken and
//! the least of them (`specs/Offsets`, `lesser` and `offset_if`).
#![tactic(auto)]

mod arguments;
mod bodies;
mod both;
mod class_tables;
mod counts;
mod declarations;
mod enum_tables;
mod gather;
mod kind;
mod listing;
mod members;
mod mentions;
mod named;
mod names;
mod numbering;
mod object_tables;
mod offsets;
mod opposites;
mod parts;
mod ranks;
mod sense;
mod sensed;
mod senses;
mod supers;
mod symbol_tables;

pub use arguments::Arguments;
pub use bodies::{
    is_blank, names_of_arguments, names_of_literal, names_of_literals, names_of_params,
    push_argument_names, reads,
};
pub use declarations::Declarations;
pub use kind::kind_of;
pub use mentions::object_name;
pub use names::Names;
pub use numbering::Numbering;
pub use offsets::{
    ClauseRule, OffsetRule, least_among, least_among_lent, least_in_clauses, least_in_literals,
    lesser, offset_if,
};
pub use opposites::{opposite, opposites_named};
pub use parts::{
    AssertDeclaration, ClassDeclaration, ClauseDeclaration, PredicateDeclaration,
    ReferenceDeclaration,
};
pub use ranks::has_ranks;
pub use sense::Sense;
pub use sensed::SensedAssertion;
