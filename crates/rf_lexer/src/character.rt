//! A text as its characters: the first one, and the longest prefix of one set.
ghost use Rattle.std.specs.Prelude.{◌≡◌, ◌+◌, ◌<◌, ◌≤◌, [], ◌∷◌, ◌++◌, List, ℕ, length, IfSome, IfNone, IsUtf8};
ghost use Rattle.std.specs.Str.{chars, encode_utf8_all};
ghost use Rattle.rf_lexer.specs.Private.Scan.{IsSpan, set_test, IsEnd};

/// A set of characters.
#[derive(Clone, Copy)]
pub enum CharSet {
    /// Those that an identifier may go on with.
    InName,
    /// All but the two that end a line.
    InLine,
    /// All that may be between quotes.
    InQuotes,
    Digit,
}

pub fn is_in(c: char, set: CharSet) -> bool
    ensures { result ≡ set_test set c }
{
    match set {
        CharSet::InName => unicode_ident::is_xid_continue(c),
        CharSet::InLine => !(c == '\n' || c == '\r'),
        CharSet::InQuotes => !(c == '\'' || (c == '\n' || c == '\r')),
        CharSet::Digit => c.is_ascii_digit(),
    }
}

/// The first character, and what follows it.
pub fn first_char(text: &str) -> Option<(char, &str)>
    ensures found { IfSome result (λ p. chars text.now ≡ p.0 ∷ chars p.1.now) }
    ensures shorter { IfSome result (λ p. length p.1.now < length text.now) }
    ensures utf8 { IfSome result (λ p. IsUtf8 p.1.now) }
    ensures none { IfNone result (chars text.now ≡ []) }
{
    let mut rest = text.chars();
    let first = rest.next()?;
    Some((first, rest.as_str()))
}

/// What follows the longest prefix whose characters are all in the set.
pub fn skip_all(text: &str, set: CharSet) -> &str
    ensures span { IsSpan (set_test set) (chars text.now) (chars result.now) }
    ensures bound { length result.now ≤ length text.now }
{
    let mut rest = text;
    'span: while let Some((first, after)) = first_char(rest) {
        if !is_in(first, set) {
            return rest;
        }
        rest = after;
    }
    rest
}

/// How many bytes the characters of a text take.
pub fn size(text: &str) -> u64
    ensures len { result ≡ length text.now }
    ensures characters { result ≡ length (encode_utf8_all (chars text.now)) }
{
    text.len() as u64
}

/// What is in a text before the rest, which is its end.
pub fn before<'a>(text: &'a str, rest: &str) -> &'a str
    requires { IsEnd (chars text.now) (chars rest.now) }
    ensures { (prefix : List ℕ) → chars text.now ≡ prefix ++ chars rest.now → result.now ≡ encode_utf8_all prefix }
{
    &text[..text.len() - rest.len()]
}
