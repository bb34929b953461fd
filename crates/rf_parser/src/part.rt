ghost use Rattle.std.specs.Prelude.{List, IfOk, IfErr};
ghost use Rattle.rf_lexer.specs.declared.token.Kind.{Kind};
ghost use Rattle.rf_syntax.specs.Piece.{Piece};
ghost use Rattle.rf_parser.specs.Private.Parsing.{Parses, StopsAt};

use rf_failure::Failure;
use rf_lexer::Token;
use std::alloc::Global;

/// Why a part of the grammar isn't parsed: how many tokens are left, of which the first is the wrong
/// one, or memory ran out.
pub type Stop = Failure<usize>;

/// A part of the grammar.
pub trait Part: Drop {
    ghost pieces: { Self → List Piece };

    /// The kinds that would make a part longer.
    ghost longer: { Kind → Type 0 };

    /// The part with which the tokens begin, as long as it can be, and the tokens after it.
    fn parse(alloc: Global, tokens: &[Token]) -> Result<(Self, &[Token]), Stop>
        ensures ok { IfOk result (λ p. Parses pieces longer tokens.now p.0 p.1.now) }
        ensures stop { IfErr result (λ e. StopsAt pieces longer tokens.now e) };
}
