//! The kinds of violation, each with the first of its kind: class (`nodes`), edge (`ends`), opposite (`mirrors`), degree,
//! containers, cycle, object, asserted and scope; and what they look for it with.

pub mod asserted;
pub mod container_of;
pub mod containers;
pub mod cycle;
pub mod degrees;
pub mod ends;
pub mod excess;
pub mod mirrors;
pub mod nodes;
pub mod objects;
pub mod peeling;
pub mod scopes;
pub mod suspects;
