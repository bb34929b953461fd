ghost use Rattle.std.specs.Prelude.{◌≡◌, IfOk, IfErr};
ghost use Rattle.rf_syntax.specs.Parts.{optional_after, each_after, separated};
ghost use Rattle.rf_syntax.specs.Terminals.{comma, right_paren};
ghost use Rattle.rf_parser.specs.Private.Parts.{kind_of, listed_in_parens, listed_to};
ghost use Rattle.rf_parser.specs.Private.Parsing.{never, either, NeverBegins, Parses, StopsAt, Adds};

use crate::part::{Part, Stop};
use crate::terminals::{Terminal, accept, expect};
use rf_lexer::{Mark, Token};
use rf_syntax::NonEmpty;
use rf_text::Items;
use std::alloc::Global;

const COMMA: Terminal = Terminal::Mark(Mark::Comma);

// Most lists between parentheses have no more parts.
const USUAL_PARTS: usize = 2;

// A part after the terminal, if that is first.
pub fn parse_optional_after<T: Part>(
    alloc: Global,
    terminal: Terminal,
    tokens: &[Token],
) -> Result<(Option<T>, &[Token]), Stop>
    ensures ok { IfOk result (λ p.
        Parses (optional_after (kind_of terminal) T.pieces)
        (either (kind_of terminal) T.longer)
        tokens.now p.0 p.1.now) }
    ensures stop { IfErr result (λ e.
        StopsAt (optional_after (kind_of terminal) T.pieces)
        (either (kind_of terminal) T.longer)
        tokens.now e) }
{
    match accept(tokens, terminal) {
        Some(after) => {
            let (part, rest) = T::parse(alloc, after)?;
            Ok((Some(part), rest))
        }
        None => Ok((None, tokens)),
    }
}

// Appends the parts after the terminal, as long as it is first.
fn push_each_after<'t, T: Part>(
    alloc: Global,
    terminal: Terminal,
    parts: &mut Items<T>,
    tokens: &'t [Token],
) -> Result<&'t [Token], Stop>
    requires { T.longer (kind_of terminal) → ⊥ }
    ensures ok { IfOk result (λ rest.
        Adds (each_after (kind_of terminal) T.pieces) (either (kind_of terminal) T.longer)
        tokens.now parts.old parts.new rest.now) }
    ensures stop { IfErr result (λ e.
        StopsAt (each_after (kind_of terminal) T.pieces) (either (kind_of terminal) T.longer)
        tokens.now e) }
{
    let mut rest = tokens;
    while let Some(after) = accept(rest, terminal) {
        let (part, next) = T::parse(alloc, after)?;
        parts.push(part)?;
        rest = next;
    }
    Ok(rest)
}

// Parts with the terminal between them.
pub fn parse_separated<T: Part>(
    alloc: Global,
    terminal: Terminal,
    tokens: &[Token],
) -> Result<(NonEmpty<T>, &[Token]), Stop>
    requires { T.longer (kind_of terminal) → ⊥ }
    ensures ok { IfOk result (λ p.
        Parses (separated (kind_of terminal) T.pieces) (either (kind_of terminal) T.longer)
        tokens.now p.0 p.1.now) }
    ensures stop { IfErr result (λ e.
        StopsAt (separated (kind_of terminal) T.pieces) (either (kind_of terminal) T.longer)
        tokens.now e) }
{
    let (first, after) = T::parse(alloc, tokens)?;
    let mut rest = Items::from_vec(Vec::new(alloc));
    let after = push_each_after(alloc, terminal, &mut rest, after)?;
    Ok((NonEmpty { first, rest }, after))
}

// Parts with commas between them, up to the closing terminal. There may be none.
pub fn parse_listed_to<T: Part>(
    alloc: Global,
    close: Terminal,
    tokens: &[Token],
) -> Result<(Items<T>, &[Token]), Stop>
    requires differs { kind_of close ≡ comma → ⊥ }
    requires comma { T.longer comma → ⊥ }
    requires close { T.longer (kind_of close) → ⊥ }
    requires begins { NeverBegins T.pieces (kind_of close) }
    ensures ok { IfOk result (λ p.
        Parses (listed_to (kind_of close) T.pieces) never tokens.now p.0 p.1.now) }
    ensures stop { IfErr result (λ e.
        StopsAt (listed_to (kind_of close) T.pieces) never tokens.now e) }
{
    if let Some(rest) = accept(tokens, close) {
        return Ok((Items::from_vec(Vec::new(alloc)), rest));
    }
    let (first, after) = T::parse(alloc, tokens)?;
    let mut parts = Items::from_vec(Vec::with_capacity(alloc, USUAL_PARTS)?);
    parts.push(first)?;
    let after = push_each_after(alloc, COMMA, &mut parts, after)?;
    let rest = expect(after, close)?;
    Ok((parts, rest))
}

// Parts with commas between them in parentheses. There may be none.
pub fn parse_in_parens<T: Part>(
    alloc: Global,
    tokens: &[Token],
) -> Result<(Items<T>, &[Token]), Stop>
    requires comma { T.longer comma → ⊥ }
    requires paren { T.longer right_paren → ⊥ }
    requires begins { NeverBegins T.pieces right_paren }
    ensures ok { IfOk result (λ p.
        Parses (listed_in_parens T.pieces) never tokens.now p.0 p.1.now) }
    ensures stop { IfErr result (λ e. StopsAt (listed_in_parens T.pieces) never tokens.now e) }
{
    let inner = expect(tokens, Terminal::Mark(Mark::LeftParen))?;
    let (parts, rest) = parse_listed_to(alloc, Terminal::Mark(Mark::RightParen), inner)?;
    Ok((parts, rest))
}
