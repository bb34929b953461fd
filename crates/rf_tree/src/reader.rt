//! Readers of tree documents, and why bytes are not read.

ghost use Rattle.std.specs.Prelude.{◌≡◌, ◌≤◌, ◌+◌};
ghost use Rattle.rf_tree.specs.declared.reader.TreeError.TheVariants.{Memory};

use crate::line_reader::LineReader;
use std::alloc::AllocError;
use thiserror::Error;

/// A reader of tree documents whose bytes come in pieces. It holds one line at the most.
#[derive(Debug, Drop)]
pub struct TreeReader {
    pub(crate) lines: LineReader,
    pub(crate) fed: u64,
    ghost counted: { lines.number ≤ fed + 1 },
}

/// Why no more lines are read.
#[derive(Clone, Copy, Debug, PartialEq, Eq, Error)]
pub enum TreeError {
    /// The number, from 1, of the first line that no tree document has there.
    #[error("bad line")]
    BadLine(u64),
    /// Memory ran out.
    #[error("out of memory")]
    Memory,
}

impl From<AllocError> for TreeError {
    ghost from_gives = { λ _ e. e ≡ Memory };

    fn from(_: AllocError) -> TreeError {
        TreeError::Memory
    }
}
