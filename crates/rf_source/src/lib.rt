//! Problem texts: from the bytes of a file to the problem, or to the first fault.
#![tactic(auto)]

mod error;
mod source;

pub use error::SourceError;
pub use source::read_source;
