//! Predicates that call themselves.

ghost use Rattle.std.specs.Prelude.{◌≡◌, ◌<◌, ◌++◌, ◌∷◌, [], ◌&&◌, ◌||◌, ◌==◌, ℕ, IfOk, OnOk, length, map, slice_index_or, slice_set, vec_len, false, replicate};
ghost use Rattle.std.specs.List.{flat_map, list_any};
ghost use Rattle.rf_closure.specs.Along.{leads};
ghost use Rattle.rf_clause_rules.specs.Calls.{AreCallers, calls_of, is_back_at, is_call_of};
ghost use Rattle.rf_names.specs.Offsets.{least_of, offset_if};
ghost use Rattle.rf_clause_rules.specs.ClauseOffsets.{recursive_offsets};

use crate::calls::{PredicateCall, calls_of_each};
use rf_closure::reach_along;
use rf_names::{Names, OffsetRule, has_ranks, least_among, lesser, offset_if};
use std::alloc::{AllocError, Global};

fn no_callers(alloc: Global, count: u64) -> Result<Vec<Vec<u64>>, AllocError>
    ensures { IfOk result (λ v. map (λ list. list.items) v.items ≡ replicate count []) }
{
    let mut callers = Vec::new(alloc);
    for _number in 0..count {
        callers.push(Vec::new(alloc))?;
    }
    Ok(callers)
}

// Puts a predicate among those that call another.
fn add_caller(callers: &mut Vec<Vec<u64>>, called: u64, caller: u64) -> Result<(), AllocError>
    requires { called < vec_len callers.old }
    ensures len { vec_len callers.new ≡ vec_len callers.old }
    ensures lists { OnOk result (map (λ list. list.items) callers.new.items
        ≡ slice_set (map (λ list. list.items) callers.old.items) called
        (slice_index_or (map (λ list. list.items) callers.old.items) called [] ++ caller ∷ [])) }
{
    callers[called as usize].push(caller)?;
    Ok(())
}

// The same by a call. One of a number that no predicate has counts for nothing.
#[tactic(auto, using(crate::proofs::CallerLemmas::call_steps))]
fn add_call(callers: &mut Vec<Vec<u64>>, caller: u64, call: PredicateCall) -> Result<(), AllocError>
    ensures len { vec_len callers.new ≡ vec_len callers.old }
    ensures lists { OnOk result ((q p : ℕ) → q < vec_len callers.old
        → leads (map (λ list. list.items) callers.new.items) q p
        ≡ (leads (map (λ list. list.items) callers.old.items) q p
        || ((caller == p) && is_call_of q call))) }
{
    if call.predicate < callers.len() as u64 {
        add_caller(callers, call.predicate, caller)
    } else {
        Ok(())
    }
}

fn add_calls(
    callers: &mut Vec<Vec<u64>>,
    caller: u64,
    calls: &[PredicateCall],
) -> Result<(), AllocError>
    ensures len { vec_len callers.new ≡ vec_len callers.old }
    ensures lists { OnOk result ((q p : ℕ) → q < vec_len callers.old
        → leads (map (λ list. list.items) callers.new.items) q p
        ≡ (leads (map (λ list. list.items) callers.old.items) q p
        || ((caller == p) && list_any (is_call_of q) calls.now))) }
{
    for call in calls {
        add_call(callers, caller, *call)?;
    }
    Ok(())
}

// For each predicate those that call it.
fn callers_of_each(alloc: Global, calls: &[Vec<PredicateCall>]) -> Result<Vec<Vec<u64>>, AllocError>
    ensures { IfOk result (λ v. AreCallers (map (λ list. list.items) calls.now)
        (map (λ list. list.items) v.items)) }
{
    let mut callers = no_callers(alloc, calls.len() as u64)?;
    for (caller, list) in calls.iter().enumerate() {
        add_calls(&mut callers, caller as u64, list.as_slice())?;
    }
    Ok(callers)
}

fn is_back_at(marks: &[bool], predicate: u64, called: u64) -> bool
    ensures { result ≡ ((called == predicate) || slice_index_or marks.now called false) }
{
    called == predicate || ((called as usize) < marks.len() && marks[called as usize])
}

// The rule of calls, by what is marked.
#[derive(Drop)]
struct CallsBack<'m> {
    marks: &'m [bool],
    predicate: u64,
}

impl<'m> OffsetRule<PredicateCall> for CallsBack<'m> {
    ghost offsets = { λ rule c.
        offset_if
        ((c.predicate == rule.predicate) || slice_index_or rule.marks.now c.predicate false)
        c.at };

    fn least_in(&self, _alloc: Global, call: &PredicateCall) -> Result<Option<u64>, AllocError> {
        let back = is_back_at(self.marks, self.predicate, call.predicate);
        Ok(offset_if(back, call.at))
    }
}

// The least offset at which a predicate calls itself or one to which its callers lead.
#[tactic(auto, using(crate::proofs::CallerLemmas::marked_offsets))]
fn least_back(
    alloc: Global,
    callers: &[Vec<u64>],
    predicate: u64,
    calls: &[PredicateCall],
) -> Result<Option<u64>, AllocError>
    requires { predicate < length callers.now }
    ensures { IfOk result (λ at. at
        ≡ least_of (flat_map
        (λ c. offset_if (is_back_at (map (λ list. list.items) callers.now) predicate c.predicate)
        c.at) calls.now)) }
{
    if calls.is_empty() {
        return Ok(None);
    }
    let marks = reach_along(alloc, callers, predicate)?;
    let rule = CallsBack {
        marks: marks.as_slice(),
        predicate,
    };
    least_among(alloc, &rule, calls)
}

fn least_in_calls(
    alloc: Global,
    names: &Names,
    callers: &[Vec<u64>],
    calls: &[Vec<PredicateCall>],
) -> Result<Option<u64>, AllocError>
    requires lists { map (λ list. list.items) calls.now
        ≡ map (calls_of names.now.declared.now) names.now.declared.now.predicates }
    requires callers { AreCallers (map (λ list. list.items) calls.now)
        (map (λ list. list.items) callers.now) }
    ensures { IfOk result (λ at. at ≡ least_of (recursive_offsets names.now.declared.now)) }
{
    let mut least = None;
    for (number, list) in calls.iter().enumerate() {
        least = lesser(
            least,
            least_back(alloc, callers, number as u64, list.as_slice())?,
        );
    }
    Ok(least)
}

/// The least offset at which a predicate is called that is the calling one or calls it, directly or
/// through others. Where ranks along the calls show that there is none, nothing is searched; else each
/// predicate that calls one takes a search along the calls of all.
#[tactic(auto, using(crate::proofs::RankedCallers::never_recursive))]
pub fn recursive(alloc: Global, names: &Names) -> Result<Option<u64>, AllocError>
    ensures { IfOk result (λ at. at ≡ least_of (recursive_offsets names.now.declared.now)) }
{
    let declared = names.declared;
    let calls = calls_of_each(alloc, names, declared.predicates.as_slice())?;
    let callers = callers_of_each(alloc, calls.as_slice())?;
    if has_ranks(alloc, callers.as_slice())? {
        return Ok(None);
    }
    least_in_calls(alloc, names, callers.as_slice(), calls.as_slice())
}
