//! The kinds of rules, and the rule of a kind at some numbers.

use rf_rules::{End, Rule};
use rf_values::{Objects, Tuple};

/// A line of the table of rules.
#[derive(Clone, Copy)]
pub enum Kind {
    Empty,
    NoClass,
    Src,
    Tgt,
    Clash,
    Full,
    Room,
    Need,
    NeedCount,
    TypeLow,
    OneContainer,
    Alone,
    MustContain,
    ContainCount,
    NoContainer,
    Acyclic,
    Under,
    ScopeTop,
    ScopeBottom,
    ScopeOut,
    ScopeIn,
    Broken,
    Forced,
}

/// The numbers of a rule: first those of the row in which it stands, then others, of which there are so many.
#[derive(Clone, Copy)]
pub struct Numbers {
    pub row: [u32; 3],
    pub others: [u64; 8],
    pub many: usize,
}

impl Numbers {
    // The other numbers as a list of the row's last ones, with as many as there are.
    fn objects(&self) -> Objects {
        Objects::of(&self.others[..self.many.min(8)])
    }

    fn tuple(&self) -> Tuple {
        Tuple::of(&self.others[..self.many.min(4)])
    }
}

// The rule of a kind of which there is one for each reference and two objects.
fn edge_rule(kind: Kind, r: u32, a: u64, b: u64) -> Rule {
    match kind {
        Kind::Src => Rule::Src(r, a, b),
        Kind::Tgt => Rule::Tgt(r, a, b),
        Kind::Full => Rule::Full(r, a, b),
        Kind::Room => Rule::Room(r, a, b),
        Kind::Need => Rule::Need(r, a, b),
        Kind::NeedCount => Rule::NeedCount(r, a, b),
        Kind::Alone => Rule::Alone(r, a, b),
        Kind::MustContain => Rule::MustContain(r, a, b),
        Kind::ContainCount => Rule::ContainCount(r, a, b),
        _ => Rule::Acyclic(r, a, b),
    }
}

// The rule at a row and an object.
fn row_rule(kind: Kind, row: u32, o: u64) -> Rule {
    match kind {
        Kind::TypeLow => Rule::TypeLow(row, o),
        Kind::ScopeTop => Rule::ScopeTop(row, o),
        Kind::ScopeBottom => Rule::ScopeBottom(row, o),
        Kind::ScopeOut => Rule::ScopeOut(row, o),
        _ => Rule::ScopeIn(row, o),
    }
}

/// The rule of a kind at these numbers.
pub fn rule_at(kind: Kind, numbers: &Numbers) -> Rule {
    let [row, k, j] = numbers.row;
    let [a, b, c, d, ..] = numbers.others;
    match kind {
        Kind::Empty => Rule::Empty(a),
        Kind::NoClass => Rule::NoClass(a),
        Kind::NoContainer => Rule::NoContainer(a),
        Kind::Clash if c == 0 => Rule::Clash(row, a, b, End::Target),
        Kind::Clash => Rule::Clash(row, a, b, End::Source),
        Kind::OneContainer => Rule::OneContainer(row, a, b, c.min(1_000) as u32, d),
        Kind::Under => Rule::Under(row),
        Kind::TypeLow | Kind::ScopeTop | Kind::ScopeBottom => row_rule(kind, row, a),
        Kind::ScopeOut | Kind::ScopeIn => row_rule(kind, row, a),
        Kind::Broken => Rule::Broken(row, numbers.tuple()),
        Kind::Forced => Rule::Forced(row, k, j, numbers.objects()),
        _ => edge_rule(kind, row, a, b),
    }
}
