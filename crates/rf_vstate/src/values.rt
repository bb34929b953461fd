//! Objects and truths as the words of values.

ghost use Rattle.std.specs.Prelude.{◌≡◌, ◌<◌, ◌==◌, ◌&&◌, ◌||◌, ◌+◌, ◌*◌, ◌/◌, ◌%◌, ◌≤◌, true, ℕ};
ghost use Rattle.std.specs.FinSet.{contains};
ghost use Rattle.std.specs.Int.{bit_at};
ghost use Rattle.rf_values.specs.Words.{marked, words_of};
ghost use Rattle.rf_problem.specs.Valid.{IsSmall};
ghost use Rattle.rf_vstate.specs.Maps.{end_in, object_in, truth_in};
ghost use Rattle.rf_vstate.specs.Words.{end_word, fact_value, number_value, object_value, truth_word};

use rf_state::Object;
use rf_store::Value;
use rf_values::{ClassSet, Count, Truth};

pub fn number_value(n: u64) -> Value
    ensures { result ≡ number_value n }
{
    [n, 0, 0, 0, 0, 0, 0]
}

fn truth_word(truth: Truth) -> u64
    ensures { result ≡ truth_word truth }
{
    match truth {
        Truth::True => 1,
        Truth::False => 2,
        Truth::Unknown => 3,
        Truth::Error => 4,
    }
}

pub fn truth_in(word: u64) -> Truth
    ensures { result ≡ truth_in word }
{
    match word {
        1 => Truth::True,
        2 => Truth::False,
        4 => Truth::Error,
        _ => Truth::Unknown,
    }
}

pub fn fact_value(truth: Truth) -> Value
    ensures { result ≡ fact_value truth }
{
    [truth_word(truth), 0, 0, 0, 0, 0, 0]
}

// The words of an upper end, which is never the greatest word itself.
fn end_word(end: Option<u64>) -> u64
    ensures { result ≡ end_word end }
{
    end.unwrap_or(u64::MAX)
}

fn end_in(word: u64) -> Option<u64>
    ensures { result ≡ end_in word }
{
    if word == u64::MAX { None } else { Some(word) }
}

// These classes and those whose bits are 1 in the word of this place.
fn with_word(classes: ClassSet, place: u32, word: u64) -> ClassSet
    requires { place < 4 }
    ensures { (c : ℕ) → contains result c ≡ ((c / 64 == place && bit_at word (c % 64) == 1) || contains classes c) }
{
    let mut all = classes;
    let mut rest = word;
    let mut bit = 0;
    while rest != 0 {
        if rest % 2 == 1 {
            all = all.adding(64 * place + bit);
        }
        rest /= 2;
        bit += 1;
    }
    all
}

// The classes that four words stand for.
fn classes_in(words: [u64; 4]) -> ClassSet
    ensures { result ≡ marked words }
{
    let mut classes = ClassSet::empty();
    for place in 0..4 {
        classes = with_word(classes, place, words[place as usize]);
    }
    classes
}

// The four words of classes with numbers below `end`.
fn class_words(classes: ClassSet, end: u32) -> [u64; 4]
    requires end { end ≤ 256 }
    requires below { (c : ℕ) → contains classes c ≡ true → c < end }
    ensures words { result ≡ words_of classes }
    ensures classes { marked result ≡ classes }
{
    let mut words = [0; 4];
    for class in 0..end {
        if classes.has(class) {
            words[(class / 64) as usize] |= 1 << (class % 64);
        }
    }
    words
}

/// The value of an object whose classes have numbers below `end`.
pub fn object_value(object: Object, end: u32) -> Value
    requires end { end ≤ 256 }
    requires below { (c : ℕ) → contains object.candidates c ≡ true → c < end }
    requires small { IsSmall object.count }
    ensures value { result ≡ object_value object }
    ensures object { object_in result ≡ object }
{
    let words = class_words(object.candidates, end);
    [
        object.origin,
        object.count.lo,
        end_word(object.count.hi),
        words[0],
        words[1],
        words[2],
        words[3],
    ]
}

/// The count of an object, whose classes aren't read.
pub fn count_in(value: &Value) -> Count
    ensures { result ≡ (object_in value.now).count }
{
    Count {
        lo: value[1],
        hi: end_in(value[2]),
    }
}

pub fn object_in(value: &Value) -> Object
    ensures { result ≡ object_in value.now }
{
    Object {
        origin: value[0],
        count: count_in(value),
        candidates: classes_in([value[3], value[4], value[5], value[6]]),
    }
}
