//! The fields of lines, for printing.

ghost use Rattle.std.specs.Prelude.{◌≡◌, [], ◌∷◌, None};
ghost use Rattle.rf_rules.specs.declared.decision.Decision.TheVariants as Decision;
ghost use Rattle.rf_rules.specs.declared.rule.Rule.TheVariants as Rule;
ghost use Rattle.rf_tree.specs.Document.{FitsDecision, FitsRule, IsEdge, IsLong, IsShort};
ghost use Rattle.rf_tree.specs.Private.Fields.{FitsLine, decision_fields, end_tail, line_fields, rule_fields, side_tail};

use crate::Line;
use crate::fields::Fields;
use crate::numbers::Numbers;
use crate::word::{Tail, Word};
use rf_rules::{Decision, End, Rule};
use rf_values::{Objects, Tuple};

// The word for an end of an edge.
fn tail_of_end(end: End) -> Tail
    ensures { result ≡ end_tail end }
{
    match end {
        End::Target => Tail::Target,
        End::Source => Tail::Source,
    }
}

// The word for the side of a decision that comes first.
fn tail_of_side(first: bool) -> Tail
    ensures { result ≡ side_tail first }
{
    if first { Tail::First } else { Tail::Second }
}

// Those of a word and one object.
fn of_object(word: Word, o: u64) -> Fields
    ensures fields { result ≡ record { word = word; numbers = o ∷ []; tail = None } }
    ensures fits { IsLong o }
{
    Fields {
        word,
        numbers: Numbers::of(&[o]),
        tail: None,
    }
}

// Those of a word and a number of none.
fn of_short(word: Word, z: u32) -> Fields
    ensures fields { result ≡ record { word = word; numbers = z ∷ []; tail = None } }
    ensures fits { IsShort z }
{
    Fields {
        word,
        numbers: Numbers::of(&[z as u64]),
        tail: None,
    }
}

// Those of a word, a number and an object.
fn of_pair(word: Word, z: u32, o: u64) -> Fields
    ensures fields { result ≡ record { word = word; numbers = z ∷ o ∷ []; tail = None } }
    ensures fits { IsShort z × IsLong o }
{
    Fields {
        word,
        numbers: Numbers::of(&[z as u64, o]),
        tail: None,
    }
}

// Those of a word, an edge, and the word at the end.
fn of_edge(word: Word, r: u32, a: u64, b: u64, tail: Option<Tail>) -> Fields
    ensures fields { result ≡ record { word = word; numbers = r ∷ a ∷ b ∷ []; tail = tail } }
    ensures fits { IsEdge r a b }
{
    Fields {
        word,
        numbers: Numbers::of(&[r as u64, a, b]),
        tail,
    }
}

// The fields of a rule about two containers.
fn of_one_container(r: u32, a: u64, b: u64, q: u32, c: u64) -> Fields
    ensures fields { result ≡ rule_fields (Rule.OneContainer r a b q c) }
    ensures fits { FitsRule (Rule.OneContainer r a b q c) }
{
    Fields {
        word: Word::OneContainer,
        numbers: Numbers::of(&[r as u64, a, b, q as u64, c]),
        tail: None,
    }
}

// The fields of a rule about a predicate at some objects.
fn of_broken(q: u32, objects: &Tuple) -> Fields
    ensures fields { result ≡ rule_fields (Rule.Broken q objects.now) }
    ensures fits { FitsRule (Rule.Broken q objects.now) }
{
    let mut numbers = Numbers::of(&[q as u64]);
    numbers.append(objects.as_slice());
    Fields {
        word: Word::Broken,
        numbers,
        tail: None,
    }
}

// The fields of a rule about a literal at some objects.
fn of_forced(q: u32, k: u32, j: u32, objects: &Objects) -> Fields
    ensures fields { result ≡ rule_fields (Rule.Forced q k j objects.now) }
    ensures fits { FitsRule (Rule.Forced q k j objects.now) }
{
    let mut numbers = Numbers::of(&[q as u64, k as u64, j as u64]);
    numbers.append(objects.as_slice());
    Fields {
        word: Word::Forced,
        numbers,
        tail: None,
    }
}

// The fields of a rule.
fn fields_of_rule(rule: &Rule) -> Fields
    ensures fields { result ≡ rule_fields rule.now }
    ensures fits { FitsRule rule.now }
{
    match *rule {
        Rule::Empty(o) => of_object(Word::Empty, o),
        Rule::NoClass(o) => of_object(Word::NoClass, o),
        Rule::Src(r, a, b) => of_edge(Word::Src, r, a, b, None),
        Rule::Tgt(r, a, b) => of_edge(Word::Tgt, r, a, b, None),
        Rule::Clash(r, a, b, end) => of_edge(Word::Clash, r, a, b, Some(tail_of_end(end))),
        Rule::Full(r, a, b) => of_edge(Word::Full, r, a, b, None),
        Rule::Room(r, a, b) => of_edge(Word::Room, r, a, b, None),
        Rule::Need(r, a, b) => of_edge(Word::Need, r, a, b, None),
        Rule::NeedCount(r, a, b) => of_edge(Word::NeedCount, r, a, b, None),
        Rule::TypeLow(z, o) => of_pair(Word::TypeLow, z, o),
        Rule::OneContainer(r, a, b, q, c) => of_one_container(r, a, b, q, c),
        Rule::Alone(r, a, b) => of_edge(Word::Alone, r, a, b, None),
        Rule::MustContain(r, a, b) => of_edge(Word::MustContain, r, a, b, None),
        Rule::ContainCount(r, a, b) => of_edge(Word::ContainCount, r, a, b, None),
        Rule::NoContainer(o) => of_object(Word::NoContainer, o),
        Rule::Acyclic(r, a, b) => of_edge(Word::Acyclic, r, a, b, None),
        Rule::Under(z) => of_short(Word::Under, z),
        Rule::ScopeTop(z, o) => of_pair(Word::ScopeTop, z, o),
        Rule::ScopeBottom(z, o) => of_pair(Word::ScopeBottom, z, o),
        Rule::ScopeOut(z, o) => of_pair(Word::ScopeOut, z, o),
        Rule::ScopeIn(z, o) => of_pair(Word::ScopeIn, z, o),
        Rule::Broken(q, objects) => of_broken(q, &objects),
        Rule::Forced(q, k, j, objects) => of_forced(q, k, j, &objects),
    }
}

// The fields of a decision on an object's class.
fn of_kind(o: u64, c: u32, first: bool) -> Fields
    ensures fields { result ≡ decision_fields (Decision.Kind o c) first }
    ensures fits { FitsDecision (Decision.Kind o c) }
{
    Fields {
        word: Word::Kind,
        numbers: Numbers::of(&[o, c as u64]),
        tail: Some(tail_of_side(first)),
    }
}

// The fields of a decision on an object's nodes.
fn of_fresh(o: u64, first: bool) -> Fields
    ensures fields { result ≡ decision_fields (Decision.Fresh o) first }
    ensures fits { FitsDecision (Decision.Fresh o) }
{
    Fields {
        word: Word::Fresh,
        numbers: Numbers::of(&[o]),
        tail: Some(tail_of_side(first)),
    }
}

// The fields of a decision and the side that comes first.
fn fields_of_decision(decision: &Decision, first: bool) -> Fields
    ensures fields { result ≡ decision_fields decision.now first }
    ensures fits { FitsDecision decision.now }
{
    match *decision {
        Decision::Fresh(o) => of_fresh(o, first),
        Decision::Kind(o, c) => of_kind(o, c, first),
        Decision::Ref(r, a, b) => of_edge(Word::Ref, r, a, b, Some(tail_of_side(first))),
    }
}

/// The fields of a line.
pub fn fields_of(line: &Line) -> Fields
    ensures fields { result ≡ line_fields line.now }
    ensures fits { FitsLine line.now }
{
    match line {
        Line::Step(rule) | Line::Close(rule) => fields_of_rule(rule),
        Line::Decide(decision, first) => fields_of_decision(decision, *first),
    }
}
