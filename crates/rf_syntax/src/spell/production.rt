ghost use Rattle.std.specs.Prelude.{◌≡◌, ◌++◌, List, OnOk};
ghost use Rattle.rf_syntax.specs.Piece.{Piece, kinds_of};

use rf_lexer::Kind;
use std::alloc::AllocError;

/// A part of the tree that has a spelling of its own.
pub trait Production {
    ghost pieces: { Self → List Piece };

    /// Appends the part's kinds.
    fn push_to(&self, out: &mut Vec<Kind>) -> Result<(), AllocError>
        ensures { OnOk result (out.new.items ≡ out.old.items ++ kinds_of (pieces self.now)) };
}
