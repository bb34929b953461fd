//! Edits that are the same for the same numbers, whatever state they are of.

ghost use Rattle.std.specs.Prelude.{◌≡◌, ◌<◌, IfOk, length};
ghost use Rattle.rf_random_edits.specs.Edits.{IsMade};

use crate::random::Random;
use rf_pending::Change;
use rf_state::{Edit, Facts};
use rf_values::{ClassSet, Count, Truth};
use std::alloc::{AllocError, Global};

fn merge<E: Edit>(
    alloc: Global,
    e: &mut E,
    random: &mut Random,
) -> Result<Option<Change>, AllocError>
    requires { 0 < length (E.state e.old).objects }
    ensures problem { E.problem e.new ≡ E.problem e.old }
    ensures made { IfOk result (λ made. IsMade (E.problem e.old) made (E.state e.old) (E.state e.new)) }
{
    let objects = e.objects();
    let references = e.problem().references.len() as u64;
    if references == 0 {
        return Ok(None);
    }
    let r = random.below(references) as u32;
    let a = random.below(objects);
    let b = random.below(objects);
    let truth = match random.below(4) {
        0 => Truth::True,
        1 => Truth::False,
        2 => Truth::Unknown,
        _ => Truth::Error,
    };
    e.merge(alloc, r, a, b, truth)?;
    Ok(Some(Change::Fact(r, a, b)))
}

fn narrow<E: Edit>(
    alloc: Global,
    e: &mut E,
    random: &mut Random,
) -> Result<Option<Change>, AllocError>
    requires { 0 < length (E.state e.old).objects }
    ensures problem { E.problem e.new ≡ E.problem e.old }
    ensures made { IfOk result (λ made. IsMade (E.problem e.old) made (E.state e.old) (E.state e.new)) }
{
    let objects = e.objects();
    let o = random.below(objects);
    let lo = random.below(2);
    let count = if random.below(2) == 0 {
        Count { lo, hi: None }
    } else {
        Count {
            lo,
            hi: Some(random.below(5)),
        }
    };
    e.narrow(alloc, o, count)?;
    Ok(Some(Change::Count(o)))
}

// The classes below a class, or the candidates of an object that aren't among them.
fn some_set<F: Facts>(view: &F, o: u64, class: u32, random: &mut Random) -> ClassSet
    requires object { o < length (F.state view.now).objects }
    requires class { class < length (F.problem view.now).classes }
{
    let below = view.problem().classes.below(class);
    if random.below(2) == 0 {
        below
    } else {
        view.candidates(o).without(below)
    }
}

fn keep<E: Edit>(
    alloc: Global,
    e: &mut E,
    random: &mut Random,
) -> Result<Option<Change>, AllocError>
    requires { 0 < length (E.state e.old).objects }
    ensures problem { E.problem e.new ≡ E.problem e.old }
    ensures made { IfOk result (λ made. IsMade (E.problem e.old) made (E.state e.old) (E.state e.new)) }
{
    let objects = e.objects();
    let classes = e.problem().classes.as_slice().len() as u64;
    if classes == 0 {
        return Ok(None);
    }
    let o = random.below(objects);
    let set = some_set(e, o, random.below(classes) as u32, random);
    e.keep(alloc, o, set)?;
    Ok(Some(Change::Candidates(o)))
}

fn fresh<E: Edit>(
    alloc: Global,
    e: &mut E,
    random: &mut Random,
    most: u64,
) -> Result<Option<Change>, AllocError>
    requires { 0 < length (E.state e.old).objects }
    ensures problem { E.problem e.new ≡ E.problem e.old }
    ensures made { IfOk result (λ made. IsMade (E.problem e.old) made (E.state e.old) (E.state e.new)) }
{
    let objects = e.objects();
    let o = random.below(objects);
    if objects >= most || e.count(o).hi == Some(0) {
        return Ok(None);
    }
    e.fresh(alloc, o)?;
    Ok(Some(Change::Fresh(o)))
}

/// Makes an edit, or none. The answer is what was changed. Where there are as many objects as `most` or more, none is
/// made.
pub fn edit<E: Edit>(
    alloc: Global,
    e: &mut E,
    random: &mut Random,
    most: u64,
) -> Result<Option<Change>, AllocError>
    ensures problem { E.problem e.new ≡ E.problem e.old }
    ensures made { IfOk result (λ made. IsMade (E.problem e.old) made (E.state e.old) (E.state e.new)) }
{
    if e.objects() == 0 {
        return Ok(None);
    }
    match random.below(10) {
        0 => narrow(alloc, e, random),
        1 | 2 => keep(alloc, e, random),
        3 | 4 => fresh(alloc, e, random, most),
        _ => merge(alloc, e, random),
    }
}
