//! How documents write names, and where a written name ends.
ghost use Rattle.std.specs.Prelude.{◌≡◌, ◌≢◌, ◌++◌, ◌∷◌, ◌↔◌, [], ℕ, List, All, IsTrue, IfSome, IfNone, IsSome, OnOk, OnErr, false};
ghost use Rattle.rf_text.specs.Written.{CanBeQuoted, EndsName, IsWritten, is_bare, ends_name, written_name};

use crate::Text;
use crate::identifier::is_identifier;
use crate::keyword::is_keyword;
use rf_bounds::MOST_NAME_BYTES;
use std::alloc::{AllocError, Global};

/// Whether a name may be written between single quotes: it has neither a single quote nor a line feed nor
/// a carriage return, and at most 255 bytes. It may be empty.
pub fn can_be_quoted(name: &[u8]) -> bool
    ensures { IsTrue result ↔ CanBeQuoted name.now }
{
    name.len() <= MOST_NAME_BYTES
        && name
            .iter()
            .all(|byte| *byte != b'\'' && *byte != b'\n' && *byte != b'\r')
}

// Whether the name needs no quotes.
fn is_bare(name: &str) -> bool
    ensures { result ≡ is_bare name.now }
{
    is_identifier(name) && !is_keyword(name.as_bytes())
}

/// Appends a name as documents write it: between single quotes, where it isn't an identifier or is a
/// keyword.
pub fn push_name(alloc: Global, out: &mut Text, name: &Text) -> Result<(), AllocError>
    ensures ok { OnOk result (out.new ≡ out.old ++ written_name name.now) }
    ensures err { OnErr result (out.new ≡ out.old) }
{
    if is_bare(name.as_str()) {
        return out.push_str(name.as_str());
    }
    let mut quoted = Text::from_str(alloc, "'")?;
    quoted.push_str(name.as_str())?;
    quoted.push_str("'")?;
    out.push_str(quoted.as_str())
}

fn ends_name(byte: u8) -> bool
    ensures { result ≡ ends_name byte }
{
    byte == b' ' || (byte == b':' || byte == b'\n')
}

// What is before the next quote, and what follows it.
fn split_quote(bytes: &[u8]) -> Option<(&[u8], &[u8])>
    ensures joined { IfSome result (λ p. bytes.now ≡ p.0.now ++ 39 ∷ p.1.now) }
    ensures first { IfSome result (λ p. All (λ b. b ≢ 39) p.0.now) }
    ensures none { IfNone result (All (λ b. b ≢ 39) bytes.now) }
{
    let end = bytes.iter().position(|byte| *byte == b'\'')?;
    Some((&bytes[..end], &bytes[end + 1..]))
}

// What is before the first byte that ends a bare name, and the rest from that byte on.
fn split_bare(bytes: &[u8]) -> (&[u8], &[u8])
    ensures joined { bytes.now ≡ result.0.now ++ result.1.now }
    ensures plain { All (λ b. ends_name b ≡ false) result.0.now }
    ensures ended { EndsName result.1.now }
{
    let end = bytes
        .iter()
        .position(|byte| ends_name(*byte))
        .unwrap_or(bytes.len());
    bytes.split_at(end)
}

/// The written name that the bytes begin with, and what follows it. A quoted name ends with the
/// next quote, and a bare one before a space, a colon, a line feed or the end. None where a quote
/// is first and no other one follows it. It takes time in proportion to the written name.
pub fn split_written(bytes: &[u8]) -> Option<(&[u8], &[u8])>
    ensures joined { IfSome result (λ p. bytes.now ≡ p.0.now ++ p.1.now) }
    ensures found { (name tail : List ℕ) → IsWritten bytes.now name tail → IsSome result }
    ensures whole { (name tail : List ℕ) → IsWritten bytes.now name tail →
        IfSome result (λ p. p.0.now ≡ written_name name) }
    ensures tail { (name tail : List ℕ) → IsWritten bytes.now name tail →
        IfSome result (λ p. p.1.now ≡ tail) }
{
    match bytes.strip_prefix(b"'") {
        Some(inside) => {
            let (name, _) = split_quote(inside)?;
            Some(bytes.split_at(name.len() + 2))
        }
        None => Some(split_bare(bytes)),
    }
}
