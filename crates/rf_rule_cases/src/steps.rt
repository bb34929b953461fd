//! The steps of a case: edits, rules, decisions, and what is to be read of the state.

use crate::reading::{
    read_class, read_count, read_number, read_object, read_predicate, read_reference, read_short,
    read_truth, read_tuple,
};
use crate::rules::{read_decision, read_rule};
use anyhow::{Result, bail, ensure};
use rf_rules::{allowed, apply, decide, fires};
use rf_state::{Edit, Facts, View};
use rf_values::ClassSet;
use std::alloc::Global;

/// Makes a step. Where something is otherwise than it wants, the error says what.
pub fn try_step<E: Edit>(alloc: Global, e: &mut E, words: &[&str]) -> Result<()> {
    let [name, rest @ ..] = words else {
        bail!("an empty step");
    };
    match *name {
        "merge" | "narrow" | "keep" | "drop" | "fresh" => try_edit(alloc, e, name, rest),
        "apply" => try_apply(alloc, e, rest),
        "decide" => try_decide(alloc, e, rest),
        "fires" | "quiet" | "closes" => try_rule(alloc, e, name, rest),
        "allowed" | "settled" => try_decision(e, name, rest),
        "count" => see_count(e, rest),
        "candidates" => see_candidates(e, rest),
        "fact" => see_fact(e, rest),
        "objects" => see_objects(e, rest),
        "value" => see_value(alloc, e, rest),
        "from" => see_from(e, rest),
        "ends" => see_ends(e, rest),
        "starts" => see_starts(e, rest),
        _ => bail!("no such step"),
    }
}

fn try_edit<E: Edit>(alloc: Global, e: &mut E, name: &str, words: &[&str]) -> Result<()> {
    match name {
        "merge" => merge(alloc, e, words),
        "narrow" => narrow(alloc, e, words),
        "keep" => keep(alloc, e, words),
        "drop" => lose(alloc, e, words),
        _ => fresh(alloc, e, words),
    }
}

fn merge<E: Edit>(alloc: Global, e: &mut E, words: &[&str]) -> Result<()> {
    let [r, a, b, value] = *words else {
        bail!("merge R A B VALUE");
    };
    let r = read_reference(e, r)?;
    let a = read_object(e, a)?;
    let b = read_object(e, b)?;
    let value = read_truth(value)?;
    e.merge(alloc, r, a, b, value)?;
    Ok(())
}

fn narrow<E: Edit>(alloc: Global, e: &mut E, words: &[&str]) -> Result<()> {
    let [o, lo, hi] = *words else {
        bail!("narrow O LO HI");
    };
    let o = read_object(e, o)?;
    let count = read_count(lo, hi)?;
    e.narrow(alloc, o, count)?;
    Ok(())
}

// Leaves an object the candidates below a class.
fn keep<E: Edit>(alloc: Global, e: &mut E, words: &[&str]) -> Result<()> {
    let [o, class] = *words else {
        bail!("keep O C");
    };
    let o = read_object(e, o)?;
    let class = read_class(e, class)?;
    let below = e.problem().classes.below(class);
    e.keep(alloc, o, below)?;
    Ok(())
}

// Leaves it the others.
fn lose<E: Edit>(alloc: Global, e: &mut E, words: &[&str]) -> Result<()> {
    let [o, class] = *words else {
        bail!("drop O C");
    };
    let o = read_object(e, o)?;
    let class = read_class(e, class)?;
    let below = e.problem().classes.below(class);
    let others = e.candidates(o).without(below);
    e.keep(alloc, o, others)?;
    Ok(())
}

fn fresh<E: Edit>(alloc: Global, e: &mut E, words: &[&str]) -> Result<()> {
    let [o] = *words else {
        bail!("fresh O");
    };
    let o = read_object(e, o)?;
    ensure!(e.count(o).hi != Some(0), "it has no node");
    e.fresh(alloc, o)?;
    Ok(())
}

// A rule that fires, and what it does is done.
fn try_apply<E: Edit>(alloc: Global, e: &mut E, words: &[&str]) -> Result<()> {
    let rule = read_rule(alloc, words)?;
    ensure!(!rule.is_closing(), "it is a closing");
    ensure!(fires(alloc, e, &rule)?, "it doesn't fire");
    apply(alloc, e, &rule)?;
    Ok(())
}

// A decision that is allowed, and one side of it is taken.
fn try_decide<E: Edit>(alloc: Global, e: &mut E, words: &[&str]) -> Result<()> {
    let [decision @ .., side] = words else {
        bail!("decide DECISION.. first or second");
    };
    let is_first = match *side {
        "first" => true,
        "second" => false,
        _ => bail!("{side} is no side"),
    };
    let decision = read_decision(decision)?;
    ensure!(allowed(e, &decision), "it isn't allowed");
    decide(alloc, e, &decision, is_first)?;
    Ok(())
}

// A rule that fires, or doesn't, or closes the state.
fn try_rule<V: View>(alloc: Global, view: &V, name: &str, words: &[&str]) -> Result<()> {
    let rule = read_rule(alloc, words)?;
    let is_firing = fires(alloc, view, &rule)?;
    ensure!(is_firing == (name != "quiet"), "fires: {is_firing}");
    ensure!(name != "closes" || rule.is_closing(), "it is no closing");
    Ok(())
}

// A decision that is allowed, or isn't.
fn try_decision<F: Facts>(view: &F, name: &str, words: &[&str]) -> Result<()> {
    let is_allowed = allowed(view, &read_decision(words)?);
    ensure!(is_allowed == (name == "allowed"), "allowed: {is_allowed}");
    Ok(())
}

// The count of an object. Its ends may be any numbers, and the lower one above the other.
fn see_count<F: Facts>(view: &F, words: &[&str]) -> Result<()> {
    let [o, lo, hi] = *words else {
        bail!("count O LO HI");
    };
    let count = view.count(read_object(view, o)?);
    let wanted = read_count(lo, hi)?;
    ensure!(count == wanted, "it is {count:?}");
    Ok(())
}

// All candidates of an object.
fn see_candidates<F: Facts>(view: &F, words: &[&str]) -> Result<()> {
    let [o, classes @ ..] = words else {
        bail!("candidates O C..");
    };
    let candidates = view.candidates(read_object(view, o)?);
    let mut wanted = ClassSet::empty();
    for class in classes {
        let class = read_short(class)?;
        ensure!(class < 256, "no such class");
        wanted = wanted.adding(class);
    }
    ensure!(candidates == wanted, "they are {candidates:?}");
    Ok(())
}

fn see_fact<F: Facts>(view: &F, words: &[&str]) -> Result<()> {
    let [r, a, b, value] = *words else {
        bail!("fact R A B VALUE");
    };
    let r = read_reference(view, r)?;
    let a = read_object(view, a)?;
    let b = read_object(view, b)?;
    let fact = view.fact(r, a, b);
    ensure!(fact == read_truth(value)?, "it is {fact:?}");
    Ok(())
}

fn see_objects<F: Facts>(view: &F, words: &[&str]) -> Result<()> {
    let [many] = *words else {
        bail!("objects N");
    };
    let objects = view.objects();
    ensure!(objects == read_number(many)?, "there are {objects}");
    Ok(())
}

// The value of a predicate at objects.
fn see_value<V: View>(alloc: Global, view: &V, words: &[&str]) -> Result<()> {
    let [predicate, objects @ .., value] = words else {
        bail!("value P O.. VALUE");
    };
    let predicate = read_predicate(view, predicate)?;
    let tuple = read_tuple(view, objects)?;
    let arity = view.problem().predicate(predicate).arity;
    ensure!(
        tuple.as_slice().len() == arity as usize,
        "it has {arity} parameters"
    );
    let found = view.value(alloc, predicate, tuple)?;
    ensure!(found == read_truth(value)?, "it is {found:?}");
    Ok(())
}

// How many objects are listed that may come from an object of the problem.
fn see_from<F: Facts>(view: &F, words: &[&str]) -> Result<()> {
    let [origin, many] = *words else {
        bail!("from O N");
    };
    let listed = view.from_origin(read_number(origin)?).count();
    ensure!(listed == read_number(many)?, "there are {listed}");
    Ok(())
}

// How many are listed to which an edge may lead from an object.
fn see_ends<F: Facts>(view: &F, words: &[&str]) -> Result<()> {
    let [r, a, many] = *words else {
        bail!("ends R A N");
    };
    let r = read_reference(view, r)?;
    let a = read_object(view, a)?;
    let listed = view.ends_from(r, a).count();
    ensure!(listed == read_number(many)?, "there are {listed}");
    Ok(())
}

// And from which one may lead to an object.
fn see_starts<F: Facts>(view: &F, words: &[&str]) -> Result<()> {
    let [r, b, many] = *words else {
        bail!("starts R B N");
    };
    let r = read_reference(view, r)?;
    let b = read_object(view, b)?;
    let listed = view.ends_into(r, b).count();
    ensure!(listed == read_number(many)?, "there are {listed}");
    Ok(())
}
