//! Names: identifiers, keywords among them, and what is between quotes.
ghost use Rattle.std.specs.Prelude.{◌≡◌, ◌≤◌, ◌∷◌, length, IfOk, IfErr, IsTrue};
ghost use Rattle.std.specs.Str.{chars};
ghost use Rattle.rf_text.specs.Identifier.{is_in_quotes, starts_identifier};
ghost use Rattle.rf_lexer.specs.Private.Scan.{Fails, IsIdentifierTo, IsSpan, Takes};

use crate::character::{CharSet, before, first_char, skip_all};
use crate::keyword::keyword_of;
use crate::{Kind, LexError};
use rf_bounds::MOST_NAME_BYTES;
use rf_failure::Failure;
use rf_text::Text;
use std::alloc::Global;

// The kind of the identifier that is in the text before the rest.
fn identifier_kind(
    alloc: Global,
    offset: u64,
    text: &str,
    rest: &str,
) -> Result<Kind, Failure<LexError>>
    requires { IsIdentifierTo (chars text.now) (chars rest.now) }
    ensures ok { IfOk result (λ kind. Takes kind (chars text.now) (chars rest.now)) }
    ensures fault { IfErr result (λ e. Fails e offset (chars text.now)) }
{
    let word = before(text, rest);
    if let Some(keyword) = keyword_of(word) {
        return Ok(Kind::Word(keyword));
    }
    if word.len() > MOST_NAME_BYTES {
        return Err(Failure::Fault(LexError::LongName(offset)));
    }
    Ok(Kind::Name(Text::from_str(alloc, word)?))
}

/// The identifier that the text begins with, at this offset, and what follows it. `after` is what
/// follows its first character.
pub fn first_identifier<'a>(
    alloc: Global,
    offset: u64,
    text: &str,
    after: &'a str,
) -> Result<(Kind, &'a str), Failure<LexError>>
    requires { (c : _) × IsTrue (starts_identifier c) × (chars text.now ≡ c ∷ chars after.now) }
    ensures ok { IfOk result (λ p. Takes p.0 (chars text.now) (chars p.1.now)) }
    ensures bound { IfOk result (λ p. length p.1.now ≤ length after.now) }
    ensures fault { IfErr result (λ e. Fails e offset (chars text.now)) }
{
    let rest = skip_all(after, CharSet::InName);
    let kind = identifier_kind(alloc, offset, text, rest)?;
    Ok((kind, rest))
}

// The kind of the quoted name that begins with a quote before the text and goes on to the rest, which
// is its other quote and what follows.
fn quoted_kind(
    alloc: Global,
    offset: u64,
    text: &str,
    rest: &str,
) -> Result<Kind, Failure<LexError>>
    requires span { IsSpan is_in_quotes (chars text.now) (chars rest.now) }
    requires quote { (suffix : _) × (chars rest.now ≡ 39 ∷ suffix) }
    ensures ok { IfOk result (λ kind. (suffix : _) → chars rest.now ≡ 39 ∷ suffix → Takes kind (39 ∷ chars text.now) suffix) }
    ensures fault { IfErr result (λ e. Fails e offset (39 ∷ chars text.now)) }
{
    let name = before(text, rest);
    if name.len() > MOST_NAME_BYTES {
        return Err(Failure::Fault(LexError::LongName(offset)));
    }
    Ok(Kind::Quoted(Text::from_str(alloc, name)?))
}

/// The quoted name whose first quote, at this offset, is right before `after`, and what follows it.
pub fn first_quoted<'a>(
    alloc: Global,
    offset: u64,
    after: &'a str,
) -> Result<(Kind, &'a str), Failure<LexError>>
    ensures ok { IfOk result (λ p. Takes p.0 (39 ∷ chars after.now) (chars p.1.now)) }
    ensures bound { IfOk result (λ p. length p.1.now ≤ length after.now) }
    ensures fault { IfErr result (λ e. Fails e offset (39 ∷ chars after.now)) }
{
    let rest = skip_all(after, CharSet::InQuotes);
    match first_char(rest) {
        Some(('\'', suffix)) => {
            let kind = quoted_kind(alloc, offset, after, rest)?;
            Ok((kind, suffix))
        }
        _ => Err(Failure::Fault(LexError::OpenQuote(offset))),
    }
}
