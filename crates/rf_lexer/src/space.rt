//! Spaces and comments.
ghost use Rattle.std.specs.Prelude.{◌<◌, ◌≤◌, ◌≡◌, ◌∷◌, length, IfSome, IfNone, IsUtf8};
ghost use Rattle.std.specs.Str.{chars};
ghost use Rattle.rf_lexer.specs.Gap.{BeginsNoGap, IsGap, IsPastOne, is_space};
ghost use Rattle.rf_lexer.specs.Private.Scan.{IsClosed, IsNotClosed};

use crate::character::{CharSet, first_char, skip_all};

// What follows the next `*/`.
fn skip_to_close(text: &str) -> Option<&str>
    ensures found { IfSome result (λ rest. IsClosed (chars text.now) (chars rest.now)) }
    ensures shorter { IfSome result (λ rest. length rest.now ≤ length text.now) }
    ensures utf8 { IfSome result (λ rest. IsUtf8 rest.now) }
    ensures none { IfNone result (IsNotClosed (chars text.now)) }
{
    let mut rest = text;
    'close: while let Some((first, after)) = first_char(rest) {
        if let Some(suffix) = skip_slash(first, after) {
            return Some(suffix);
        }
        rest = after;
    }
    None
}

// What follows a `/`, where the character before it is `*`.
fn skip_slash(first: char, after: &str) -> Option<&str>
    ensures found { IfSome result (λ rest. (first ≡ 42) × (chars after.now ≡ 47 ∷ chars rest.now)) }
    ensures shorter { IfSome result (λ rest. length rest.now < length after.now) }
    ensures utf8 { IfSome result (λ rest. IsUtf8 rest.now) }
    ensures none { IfNone result ((rest : _) → first ≡ 42 → chars after.now ≡ 47 ∷ rest → ⊥) }
{
    if first != '*' {
        return None;
    }
    match first_char(after) {
        Some(('/', suffix)) => Some(suffix),
        _ => None,
    }
}

// What follows a comment whose first character, `/`, is right before `after`.
fn skip_comment(after: &str) -> Option<&str>
    ensures found { IfSome result (λ rest. IsPastOne (47 ∷ chars after.now) (chars rest.now)) }
    ensures shorter { IfSome result (λ rest. length rest.now < length after.now) }
    ensures utf8 { IfSome result (λ rest. IsUtf8 rest.now) }
    ensures none { IfNone result (BeginsNoGap (47 ∷ chars after.now)) }
{
    let (second, after) = first_char(after)?;
    match second {
        '/' => Some(skip_all(after, CharSet::InLine)),
        '*' => skip_to_close(after),
        _ => None,
    }
}

fn is_space(c: char) -> bool
    ensures { result ≡ is_space c }
{
    c == ' ' || (c == '\t' || (c == '\n' || c == '\r'))
}

// What follows the one space or comment that the text begins with.
fn skip_one(text: &str) -> Option<&str>
    ensures found { IfSome result (λ rest. IsPastOne (chars text.now) (chars rest.now)) }
    ensures shorter { IfSome result (λ rest. length rest.now < length text.now) }
    ensures utf8 { IfSome result (λ rest. IsUtf8 rest.now) }
    ensures none { IfNone result (BeginsNoGap (chars text.now)) }
{
    let (first, after) = first_char(text)?;
    if is_space(first) {
        return Some(after);
    }
    match first {
        '%' => Some(skip_all(after, CharSet::InLine)),
        '/' => skip_comment(after),
        _ => None,
    }
}

/// What follows all spaces and comments that the text begins with.
pub fn skip_gap(text: &str) -> &str
    ensures gap { IsGap (chars text.now) (chars result.now) }
    ensures all { BeginsNoGap (chars result.now) }
    ensures bound { length result.now ≤ length text.now }
{
    let mut rest = text;
    'gap: while let Some(after) = skip_one(rest) {
        rest = after;
    }
    rest
}
