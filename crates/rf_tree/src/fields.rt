//! Lines by their fields: a word, its numbers, and perhaps a word at the end.

ghost use Rattle.std.specs.Prelude.{◌≡◌, ◌<◌, ◌≤◌, ◌^◌, ◌++◌, ◌∷◌, ℕ, List, Option, All, length, codes, IfSome, IfNone};
ghost use Rattle.rf_tree.specs.Document.{AreObjects, spaced};
ghost use Rattle.rf_tree.specs.Private.Fields.{EndsWord, IsNumberFirst, NoSpace, fields_text, tail_text};
ghost use Rattle.rf_tree.specs.declared.fields.Fields.{Fields as FieldsValue};
ghost use Rattle.rf_tree.specs.declared.word.Tail.{Tail as TailValue};

use crate::numbers::Numbers;
use crate::word::{Tail, Word, tail_of, word_of};
use rf_text::read_number;

/// A word, at most eleven numbers, and the word at the end of the line.
#[derive(Debug, Drop)]
pub struct Fields {
    pub word: Word,
    pub numbers: Numbers,
    pub tail: Option<Tail>,
}

// What stands before the first space, and the rest from that space on.
fn split_word(bytes: &[u8]) -> (&[u8], &[u8])
    ensures joined { bytes.now ≡ result.0.now ++ result.1.now }
    ensures plain { NoSpace result.0.now }
    ensures ended { EndsWord result.1.now }
{
    let end = bytes
        .iter()
        .position(|byte| *byte == b' ')
        .unwrap_or(bytes.len());
    bytes.split_at(end)
}

// What stands after a space.
fn after_space(bytes: &[u8]) -> Option<&[u8]>
    ensures found { IfSome result (λ rest. bytes.now ≡ 32 ∷ rest.now) }
    ensures none { IfNone result ((rest : List ℕ) → bytes.now ≡ 32 ∷ rest → ⊥) }
{
    bytes.strip_prefix(b" ".as_slice())
}

// The number that stands after a space at the head of the bytes, and what follows it.
fn first_number(bytes: &[u8]) -> Option<(u64, &[u8])>
    ensures found { IfSome result (λ found. IsNumberFirst bytes.now found.0 found.1.now) }
    ensures none { IfNone result ((n : ℕ) (rest : List ℕ) → IsNumberFirst bytes.now n rest → ⊥) }
{
    let words = after_space(bytes)?;
    let (word, rest) = split_word(words);
    let number = read_number(word)?;
    Some((number, rest))
}

// The numbers at the head of the bytes, each after a space, at most eleven, and what follows them.
fn read_numbers(bytes: &[u8]) -> (Numbers, &[u8])
    requires { EndsWord bytes.now }
    ensures joined { bytes.now ≡ spaced result.0 ++ result.1.now }
    ensures numbers { AreObjects 11 result.0 }
    ensures ended { EndsWord result.1.now }
    ensures over { length result.0 < 11 → (n : ℕ) (rest : List ℕ) → IsNumberFirst result.1.now n rest → ⊥ }
{
    let mut numbers = Numbers::new();
    let mut rest = bytes;
    while let Some((number, after)) = first_number(rest) {
        if numbers.is_full() {
            break;
        }
        numbers.push(number);
        rest = after;
    }
    (numbers, rest)
}

// The word at the end of the line after its numbers, where there is one.
fn read_tail(bytes: &[u8]) -> Option<Option<Tail>>
    ensures found { IfSome result (λ tail. bytes.now ≡ tail_text tail) }
    ensures none { IfNone result ((tail : Option TailValue) → bytes.now ≡ tail_text tail → ⊥) }
{
    if bytes.is_empty() {
        return Some(None);
    }
    let word = after_space(bytes)?;
    let tail = tail_of(word)?;
    Some(Some(tail))
}

/// The fields that are written so.
pub fn read_fields(bytes: &[u8]) -> Option<Fields>
    ensures found { IfSome result (λ fields. bytes.now ≡ fields_text fields) }
    ensures numbers { IfSome result (λ fields. AreObjects 11 fields.numbers) }
    ensures none { IfNone result ((fields : FieldsValue) → AreObjects 11 fields.numbers → bytes.now ≡ fields_text fields → ⊥) }
{
    let (start, after) = split_word(bytes);
    let word = word_of(start)?;
    let (numbers, end) = read_numbers(after);
    let tail = read_tail(end)?;
    Some(Fields {
        word,
        numbers,
        tail,
    })
}
