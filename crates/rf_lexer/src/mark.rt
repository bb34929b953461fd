ghost use Rattle.std.specs.Prelude.{◌≡◌, ◌<◌, ◌≤◌, [], ◌∷◌, ◌++◌, length, IfSome, IfNone, IsUtf8};
ghost use Rattle.std.specs.Str.{chars};
ghost use Rattle.rf_lexer.specs.Private.Scan.{HasNoMarkOf, IsLongestMark, IsMarkOf};
ghost use Rattle.rf_lexer.specs.Spelling.{mark_spelling};

use crate::character::first_char;

/// A mark of punctuation.
#[derive(Clone, Copy, Debug, PartialEq, Eq)]
pub enum Mark {
    /// `.`
    Dot,
    /// `..`
    DotDot,
    /// `,`
    Comma,
    /// `;`
    Semicolon,
    /// `:`
    Colon,
    /// `::`
    ColonColon,
    /// `(`
    LeftParen,
    /// `)`
    RightParen,
    /// `[`
    LeftBracket,
    /// `]`
    RightBracket,
    /// `{`
    LeftBrace,
    /// `}`
    RightBrace,
    /// `!`
    Bang,
    /// `?`
    Question,
    /// `*`
    Star,
    /// `+`
    Plus,
    /// `=`
    Equal,
    /// `+=`
    PlusEqual,
    /// `==`
    EqualEqual,
    /// `!=`
    BangEqual,
    /// `<->`
    Iff,
}

impl Mark {
    /// How the mark is written.
    pub fn as_str(self) -> &'static str
        ensures spelling { result.now ≡ mark_spelling self }
        ensures some { 0 < length result.now }
    {
        match self {
            Mark::Dot => ".",
            Mark::DotDot => "..",
            Mark::Comma => ",",
            Mark::Semicolon => ";",
            Mark::Colon => ":",
            Mark::ColonColon => "::",
            Mark::LeftParen => "(",
            Mark::RightParen => ")",
            Mark::LeftBracket => "[",
            Mark::RightBracket => "]",
            Mark::LeftBrace => "{",
            Mark::RightBrace => "}",
            Mark::Bang => "!",
            Mark::Question => "?",
            Mark::Star => "*",
            Mark::Plus => "+",
            Mark::Equal => "=",
            Mark::PlusEqual => "+=",
            Mark::EqualEqual => "==",
            Mark::BangEqual => "!=",
            Mark::Iff => "<->",
        }
    }
}

// What follows this character, where the text begins with it.
fn skip_char(text: &str, wanted: char) -> Option<&str>
    ensures found { IfSome result (λ rest. chars text.now ≡ wanted ∷ chars rest.now) }
    ensures shorter { IfSome result (λ rest. length rest.now < length text.now) }
    ensures utf8 { IfSome result (λ rest. IsUtf8 rest.now) }
    ensures none { IfNone result ((rest : _) → chars text.now ≡ wanted ∷ rest → ⊥) }
{
    match first_char(text) {
        Some((first, after)) if first == wanted => Some(after),
        _ => None,
    }
}

// The mark that is this character alone.
fn single_mark(c: char) -> Option<Mark>
    ensures found { IfSome result (λ mark. mark_spelling mark ≡ c ∷ []) }
    ensures none { IfNone result ((mark : _) → mark_spelling mark ≡ c ∷ [] → ⊥) }
{
    match c {
        '.' => Some(Mark::Dot),
        ',' => Some(Mark::Comma),
        ';' => Some(Mark::Semicolon),
        ':' => Some(Mark::Colon),
        '(' => Some(Mark::LeftParen),
        ')' => Some(Mark::RightParen),
        '[' => Some(Mark::LeftBracket),
        ']' => Some(Mark::RightBracket),
        '{' => Some(Mark::LeftBrace),
        '}' => Some(Mark::RightBrace),
        '!' => Some(Mark::Bang),
        '?' => Some(Mark::Question),
        '*' => Some(Mark::Star),
        '+' => Some(Mark::Plus),
        '=' => Some(Mark::Equal),
        _ => None,
    }
}

// The mark that is these two characters.
fn double_mark(first: char, second: char) -> Option<Mark>
    ensures found { IfSome result (λ mark. mark_spelling mark ≡ first ∷ second ∷ []) }
    ensures none { IfNone result ((mark : _) → mark_spelling mark ≡ first ∷ second ∷ [] → ⊥) }
{
    match (first, second) {
        ('.', '.') => Some(Mark::DotDot),
        (':', ':') => Some(Mark::ColonColon),
        ('+', '=') => Some(Mark::PlusEqual),
        ('=', '=') => Some(Mark::EqualEqual),
        ('!', '=') => Some(Mark::BangEqual),
        _ => None,
    }
}

// The mark of two characters that begins with this one, where this text follows it, and what follows
// the mark.
fn first_double(first: char, after: &str) -> Option<(Mark, &str)>
    ensures found { IfSome result (λ p. IsMarkOf 2 p.0 (first ∷ chars after.now) (chars p.1.now)) }
    ensures shorter { IfSome result (λ p. length p.1.now < length after.now) }
    ensures utf8 { IfSome result (λ p. IsUtf8 p.1.now) }
    ensures none { IfNone result (HasNoMarkOf 2 (first ∷ chars after.now)) }
{
    let (second, rest) = first_char(after)?;
    Some((double_mark(first, second)?, rest))
}

/// The longest mark that the text begins with, and what follows it.
pub fn first_mark(text: &str) -> Option<(Mark, &str)>
    ensures found { IfSome result (λ p. IsLongestMark p.0 (chars text.now) (chars p.1.now)) }
    ensures shorter { IfSome result (λ p. length p.1.now < length text.now) }
    ensures none { IfNone result ((mark : _) (rest : _) → chars text.now ≡ mark_spelling mark ++ rest → ⊥) }
{
    let (first, after) = first_char(text)?;
    if first == '<' {
        let rest = skip_char(skip_char(after, '-')?, '>')?;
        return Some((Mark::Iff, rest));
    }
    if let Some(double) = first_double(first, after) {
        return Some(double);
    }
    Some((single_mark(first)?, after))
}
