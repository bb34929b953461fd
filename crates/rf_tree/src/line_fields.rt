//! Lines and their fields: each line has its own, and fields are those of one line at the most.

ghost use Rattle.std.specs.Prelude.{◌≡◌, ◌<◌, ◌^◌, [], ◌∷◌, All, IfSome, IfNone};
ghost use Rattle.rf_tree.specs.Document.{AreObjects, IsWritable, has_rule, line_text};
ghost use Rattle.rf_tree.specs.Private.Fields.{broken_of, clash_rule, decision_line, decision_of, edge_of, forced_of, line_at, line_fields, one_container_of, one_of, plain_rule, rule_line, scoped_of, short_of, typed_of};
ghost use Rattle.rf_tree.specs.declared.line.Line.{Line as LineValue};

use crate::fields::{Fields, read_fields};
use crate::numbers::Numbers;
use crate::word::{Tail, Word};
use crate::{Format, Line};
use rf_rules::{Decision, End, Rule};
use rf_values::{Objects, Tuple};

// A number of a reference, a class, a predicate, a scope, a clause or a literal.
fn short(number: u64) -> Option<u32>
    ensures { result ≡ short_of (number ∷ []) }
{
    u32::try_from(number).ok()
}

// One number of an object.
fn read_one(numbers: &[u64]) -> Option<u64>
    ensures { result ≡ one_of numbers.now }
{
    match numbers {
        [o] => Some(*o),
        _ => None,
    }
}

// One number that is none of an object.
fn read_short(numbers: &[u64]) -> Option<u32>
    ensures { result ≡ short_of numbers.now }
{
    match numbers {
        [z] => short(*z),
        _ => None,
    }
}

// One such number, and one of an object.
fn read_scoped(numbers: &[u64]) -> Option<(u32, u64)>
    ensures { result ≡ scoped_of numbers.now }
{
    match numbers {
        [z, o] => Some((short(*z)?, *o)),
        _ => None,
    }
}

// The number of an object, and one that is none.
fn read_typed(numbers: &[u64]) -> Option<(u64, u32)>
    ensures { result ≡ typed_of numbers.now }
{
    match numbers {
        [o, c] => Some((*o, short(*c)?)),
        _ => None,
    }
}

// The numbers of a reference and of two objects.
fn read_edge(numbers: &[u64]) -> Option<(u32, u64, u64)>
    ensures { result ≡ edge_of numbers.now }
{
    match numbers {
        [r, a, b] => Some((short(*r)?, *a, *b)),
        _ => None,
    }
}

fn read_one_container(numbers: &[u64]) -> Option<Rule>
    ensures { result ≡ one_container_of numbers.now }
{
    match numbers {
        [r, a, b, q, c] => Some(Rule::OneContainer(short(*r)?, *a, *b, short(*q)?, *c)),
        _ => None,
    }
}

fn read_broken(numbers: &[u64]) -> Option<Rule>
    ensures { result ≡ broken_of numbers.now }
{
    match numbers {
        [q, objects @ ..] if objects.len() <= 4 => Some(Rule::Broken(
            short(*q)?,
            Tuple::of(objects),
        )),
        _ => None,
    }
}

fn read_forced(numbers: &[u64]) -> Option<Rule>
    ensures { result ≡ forced_of numbers.now }
{
    match numbers {
        [q, k, j, objects @ ..] if objects.len() <= 8 => Some(Rule::Forced(
            short(*q)?,
            short(*k)?,
            short(*j)?,
            Objects::of(objects),
        )),
        _ => None,
    }
}

// The rule of a word and its numbers, where nothing follows them.
fn read_plain_rule(word: Word, numbers: &[u64]) -> Option<Rule>
    ensures { result ≡ plain_rule word numbers.now }
{
    match word {
        Word::Empty => Some(Rule::Empty(read_one(numbers)?)),
        Word::NoClass => Some(Rule::NoClass(read_one(numbers)?)),
        Word::Src => {
            let (r, a, b) = read_edge(numbers)?;
            Some(Rule::Src(r, a, b))
        }
        Word::Tgt => {
            let (r, a, b) = read_edge(numbers)?;
            Some(Rule::Tgt(r, a, b))
        }
        Word::Full => {
            let (r, a, b) = read_edge(numbers)?;
            Some(Rule::Full(r, a, b))
        }
        Word::Room => {
            let (r, a, b) = read_edge(numbers)?;
            Some(Rule::Room(r, a, b))
        }
        Word::Need => {
            let (r, a, b) = read_edge(numbers)?;
            Some(Rule::Need(r, a, b))
        }
        Word::NeedCount => {
            let (r, a, b) = read_edge(numbers)?;
            Some(Rule::NeedCount(r, a, b))
        }
        Word::TypeLow => {
            let (r, a) = read_scoped(numbers)?;
            Some(Rule::TypeLow(r, a))
        }
        Word::OneContainer => read_one_container(numbers),
        Word::Alone => {
            let (r, a, b) = read_edge(numbers)?;
            Some(Rule::Alone(r, a, b))
        }
        Word::MustContain => {
            let (r, a, b) = read_edge(numbers)?;
            Some(Rule::MustContain(r, a, b))
        }
        Word::ContainCount => {
            let (r, a, b) = read_edge(numbers)?;
            Some(Rule::ContainCount(r, a, b))
        }
        Word::NoContainer => Some(Rule::NoContainer(read_one(numbers)?)),
        Word::Acyclic => {
            let (r, a, b) = read_edge(numbers)?;
            Some(Rule::Acyclic(r, a, b))
        }
        Word::Under => Some(Rule::Under(read_short(numbers)?)),
        Word::ScopeTop => {
            let (z, o) = read_scoped(numbers)?;
            Some(Rule::ScopeTop(z, o))
        }
        Word::ScopeBottom => {
            let (z, o) = read_scoped(numbers)?;
            Some(Rule::ScopeBottom(z, o))
        }
        Word::ScopeOut => {
            let (z, o) = read_scoped(numbers)?;
            Some(Rule::ScopeOut(z, o))
        }
        Word::ScopeIn => {
            let (z, o) = read_scoped(numbers)?;
            Some(Rule::ScopeIn(z, o))
        }
        Word::Broken => read_broken(numbers),
        Word::Forced => read_forced(numbers),
        Word::Clash | Word::Fresh | Word::Kind | Word::Ref => None,
    }
}

// The rule about an end of an edge of a word and its numbers.
fn read_clash(word: Word, numbers: &[u64], end: End) -> Option<Rule>
    ensures { result ≡ clash_rule word numbers.now end }
{
    match word {
        Word::Clash => {
            let (r, a, b) = read_edge(numbers)?;
            Some(Rule::Clash(r, a, b, end))
        }
        _ => None,
    }
}

// The decision of a word and its numbers.
fn read_decision(word: Word, numbers: &[u64]) -> Option<Decision>
    ensures { result ≡ decision_of word numbers.now }
{
    match word {
        Word::Fresh => Some(Decision::Fresh(read_one(numbers)?)),
        Word::Kind => {
            let (o, c) = read_typed(numbers)?;
            Some(Decision::Kind(o, c))
        }
        Word::Ref => {
            let (r, a, b) = read_edge(numbers)?;
            Some(Decision::Ref(r, a, b))
        }
        _ => None,
    }
}

// Whether a format has a rule.
fn has_rule(format: Format, rule: &Rule) -> bool
    ensures { result ≡ has_rule format rule.now }
{
    match (format, rule) {
        (Format::One, Rule::Forced(..)) => false,
        _ => true,
    }
}

// The line of a rule in a format.
fn rule_line(format: Format, rule: Option<Rule>) -> Option<Line>
    ensures { result ≡ rule_line format rule }
{
    let rule = rule?;
    if !has_rule(format, &rule) {
        None
    } else if rule.is_closing() {
        Some(Line::Close(rule))
    } else {
        Some(Line::Step(rule))
    }
}

// The line of a decision.
fn decision_line(decision: Option<Decision>, first: bool) -> Option<Line>
    ensures { result ≡ decision_line decision first }
{
    Some(Line::Decide(decision?, first))
}

// The line of a word, numbers and the word at the end in a format.
fn line_at(format: Format, word: Word, numbers: &[u64], tail: Option<Tail>) -> Option<Line>
    ensures { result ≡ line_at format word numbers.now tail }
{
    match tail {
        None => rule_line(format, read_plain_rule(word, numbers)),
        Some(Tail::Target) => rule_line(format, read_clash(word, numbers, End::Target)),
        Some(Tail::Source) => rule_line(format, read_clash(word, numbers, End::Source)),
        Some(Tail::First) => decision_line(read_decision(word, numbers), true),
        Some(Tail::Second) => decision_line(read_decision(word, numbers), false),
    }
}

/// The line that has these fields in a format, if there is one.
pub fn line_of(format: Format, fields: &Fields) -> Option<Line>
    requires { AreObjects 11 fields.now.numbers }
    ensures found { IfSome result (λ line. IsWritable format line × (line_fields line ≡ fields.now)) }
    ensures none { IfNone result ((line : LineValue) → IsWritable format line → line_fields line ≡ fields.now → ⊥) }
{
    line_at(format, fields.word, fields.numbers.as_slice(), fields.tail)
}

/// The line of a format that is written so, if there is one.
pub fn read_line(format: Format, text: &[u8]) -> Option<Line>
    ensures found { IfSome result (λ line. IsWritable format line × (text.now ≡ line_text line)) }
    ensures none { IfNone result ((line : LineValue) → IsWritable format line → text.now ≡ line_text line → ⊥) }
{
    let fields = read_fields(text)?;
    line_of(format, &fields)
}
