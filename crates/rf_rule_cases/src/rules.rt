//! Rules and decisions, as cases write them: by the lines of their tables.

use crate::reading::{read_number, read_numbers, read_short};
use anyhow::{Result, bail, ensure};
use rf_rules::{Decision, End, Rule};
use rf_values::{Objects, Tuple};
use std::alloc::Global;

/// A rule, by its name and numbers.
pub fn read_rule(alloc: Global, words: &[&str]) -> Result<Rule> {
    let [name, numbers @ ..] = words else {
        bail!("no rule");
    };
    match *name {
        "clash" => read_clash(numbers),
        "one-container" => read_one_container(numbers),
        "broken" => read_broken(alloc, numbers),
        "forced" => read_forced(alloc, numbers),
        _ => match read_plain(name, numbers)? {
            Some(rule) => Ok(rule),
            None => bail!("no such rule: {name}"),
        },
    }
}

// A rule of an object or a scope, of a row and an object, or of a reference and two objects.
fn read_plain(name: &str, numbers: &[&str]) -> Result<Option<Rule>> {
    match *numbers {
        [number] if name == "under" => Ok(Some(Rule::Under(read_short(number)?))),
        [o] => Ok(object_rule(name, read_number(o)?)),
        [row, o] => Ok(row_rule(name, read_short(row)?, read_number(o)?)),
        [r, a, b] => Ok(edge_rule(name, read_short(r)?, read_number(a)?, read_number(b)?)),
        _ => Ok(None),
    }
}

fn object_rule(name: &str, o: u64) -> Option<Rule> {
    match name {
        "empty" => Some(Rule::Empty(o)),
        "no-class" => Some(Rule::NoClass(o)),
        "no-container" => Some(Rule::NoContainer(o)),
        _ => None,
    }
}

fn row_rule(name: &str, row: u32, o: u64) -> Option<Rule> {
    match name {
        "type-low" => Some(Rule::TypeLow(row, o)),
        "scope-top" => Some(Rule::ScopeTop(row, o)),
        "scope-bottom" => Some(Rule::ScopeBottom(row, o)),
        "scope-out" => Some(Rule::ScopeOut(row, o)),
        "scope-in" => Some(Rule::ScopeIn(row, o)),
        _ => None,
    }
}

fn edge_rule(name: &str, r: u32, a: u64, b: u64) -> Option<Rule> {
    match name {
        "src" => Some(Rule::Src(r, a, b)),
        "tgt" => Some(Rule::Tgt(r, a, b)),
        "full" => Some(Rule::Full(r, a, b)),
        "room" => Some(Rule::Room(r, a, b)),
        "need" => Some(Rule::Need(r, a, b)),
        "need-count" => Some(Rule::NeedCount(r, a, b)),
        "alone" => Some(Rule::Alone(r, a, b)),
        "must-contain" => Some(Rule::MustContain(r, a, b)),
        "contain-count" => Some(Rule::ContainCount(r, a, b)),
        "acyclic" => Some(Rule::Acyclic(r, a, b)),
        _ => None,
    }
}

fn read_clash(words: &[&str]) -> Result<Rule> {
    let [r, a, b, end] = *words else {
        bail!("clash R A B target or source");
    };
    let end = match end {
        "target" => End::Target,
        "source" => End::Source,
        _ => bail!("{end} is no end"),
    };
    Ok(Rule::Clash(read_short(r)?, read_number(a)?, read_number(b)?, end))
}

fn read_one_container(words: &[&str]) -> Result<Rule> {
    let [r, a, b, q, c] = *words else {
        bail!("one-container R A B Q C");
    };
    Ok(Rule::OneContainer(
        read_short(r)?,
        read_number(a)?,
        read_number(b)?,
        read_short(q)?,
        read_number(c)?,
    ))
}

fn read_broken(alloc: Global, words: &[&str]) -> Result<Rule> {
    let [predicate, objects @ ..] = words else {
        bail!("broken P O..");
    };
    let objects = read_numbers(alloc, objects)?;
    ensure!(objects.len() <= 4, "more than 4 objects");
    Ok(Rule::Broken(read_short(predicate)?, Tuple::of(objects.as_slice())))
}

fn read_forced(alloc: Global, words: &[&str]) -> Result<Rule> {
    let [predicate, clause, literal, objects @ ..] = words else {
        bail!("forced P K J O..");
    };
    let objects = read_numbers(alloc, objects)?;
    ensure!(objects.len() <= 8, "more than 8 objects");
    Ok(Rule::Forced(
        read_short(predicate)?,
        read_short(clause)?,
        read_short(literal)?,
        Objects::of(objects.as_slice()),
    ))
}

/// A decision, by its name and numbers.
pub fn read_decision(words: &[&str]) -> Result<Decision> {
    match *words {
        ["new", o] => Ok(Decision::Fresh(read_number(o)?)),
        ["type", o, class] => Ok(Decision::Kind(read_number(o)?, read_short(class)?)),
        ["ref", r, a, b] => Ok(Decision::Ref(read_short(r)?, read_number(a)?, read_number(b)?)),
        _ => bail!("no such decision"),
    }
}
