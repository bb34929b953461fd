//! Numbers.
ghost use Rattle.std.specs.Prelude.{◌≡◌, ◌≤◌, ◌∷◌, length, IfOk, IfErr};
ghost use Rattle.std.specs.Str.{chars};
ghost use Rattle.rf_lexer.specs.Private.Scan.{Fails, IsNumberTo, Takes};

use crate::character::{CharSet, before, skip_all};
use crate::{Kind, LexError};
use rf_bounds::GREATEST_NUMBER;
use rf_failure::Failure;

// What follows the number of this first digit, which is right before `after`.
fn skip_number(first: char, after: &str) -> &str
    requires low { 48 ≤ first }
    requires high { first ≤ 57 }
    ensures number { IsNumberTo (first ∷ chars after.now) (chars result.now) }
    ensures bound { length result.now ≤ length after.now }
{
    if first == '0' {
        after
    } else {
        skip_all(after, CharSet::Digit)
    }
}

// The kind of the number that is in the text before the rest.
fn number_kind(offset: u64, text: &str, rest: &str) -> Result<Kind, Failure<LexError>>
    requires { IsNumberTo (chars text.now) (chars rest.now) }
    ensures ok { IfOk result (λ kind. Takes kind (chars text.now) (chars rest.now)) }
    ensures fault { IfErr result (λ e. Fails e offset (chars text.now)) }
{
    match before(text, rest).parse::<u32>() {
        Ok(n) if n <= GREATEST_NUMBER => Ok(Kind::Number(n)),
        _ => Err(Failure::Fault(LexError::BigNumber(offset))),
    }
}

/// The number that the text begins with, at this offset, and what follows it. `after` is what
/// follows its first digit.
pub fn first_number<'a>(
    offset: u64,
    text: &str,
    first: char,
    after: &'a str,
) -> Result<(Kind, &'a str), Failure<LexError>>
    requires low { 48 ≤ first }
    requires high { first ≤ 57 }
    requires joined { chars text.now ≡ first ∷ chars after.now }
    ensures ok { IfOk result (λ p. Takes p.0 (chars text.now) (chars p.1.now)) }
    ensures bound { IfOk result (λ p. length p.1.now ≤ length after.now) }
    ensures fault { IfErr result (λ e. Fails e offset (chars text.now)) }
{
    let rest = skip_number(first, after);
    let kind = number_kind(offset, text, rest)?;
    Ok((kind, rest))
}
