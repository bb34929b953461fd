//! The problem of a number, beside the one that its text is read as.

ghost use Rattle.std.specs.Prelude.{◌≤◌};

use rf_grow::grown;
use rf_source::read_source;
use rf_text::Text;
use std::alloc::{AllocError, Global};
use std::process::Abort;

// What the text says whatever the number.
const DECLARED: &str = "class Top { contains Part[] parts }
class Part { Part next }
default !parts(*, *). default !next(*, *).
error loop(x) <-> next+(x, x).
Top(t).
";

// Appends that each of n parts is one of the whole.
fn push_parts(alloc: Global, text: &mut Text, n: u32) -> Result<(), AllocError> {
    for k in 0..n {
        let fact = format!(in alloc; "parts(t, p{k}).\n")?;
        text.push_str(fact.as_str())?;
    }
    Ok(())
}

// Appends that each of n parts but the last has the next one.
fn push_row(alloc: Global, text: &mut Text, n: u32) -> Result<(), AllocError> {
    for j in 1..n {
        let k = j - 1;
        let fact = format!(in alloc; "next(p{k}, p{j}).\n")?;
        text.push_str(fact.as_str())?;
    }
    Ok(())
}

// The text of the problem of n.
fn text_of(alloc: Global, n: u32) -> Result<Text, AllocError>
    requires some { 1 ≤ n }
    requires most { n ≤ 200 }
{
    let mut text = Text::from_str(alloc, DECLARED)?;
    push_parts(alloc, &mut text, n)?;
    push_row(alloc, &mut text, n)?;
    let (last, nodes) = (n - 1, n + 1);
    let rest = format!(in alloc; "?next(p{last}, *).\nscope node = {nodes}.\n")?;
    text.push_str(rest.as_str())?;
    Ok(text)
}

fn is_read_as_grown(rt: &impl Abort, alloc: Global, n: u32)
    requires some { 1 ≤ n }
    requires most { n ≤ 200 }
{
    let Ok(text) = text_of(alloc, n) else {
        panic!(rt; "memory suffices");
    };
    let bytes = text.as_str().as_bytes();
    assert!(rt; bytes.len() < 65_536);
    let Ok(read) = read_source(alloc, bytes) else {
        panic!(rt; "the problem is read");
    };
    let Ok(made) = grown(alloc, n) else {
        panic!(rt; "memory suffices");
    };
    let (Ok(read), Ok(made)) = (format!(in alloc; "{read:?}"), format!(in alloc; "{made:?}")) else {
        panic!(rt; "memory suffices");
    };
    assert_eq!(rt; made.as_str(), read.as_str());
}

#[test]
fn the_text_of_1_is_read_as_its_problem(rt: HostRuntime) {
    is_read_as_grown(&rt, rt.alloc(), 1);
}

#[test]
fn the_text_of_3_is_read_as_its_problem(rt: HostRuntime) {
    is_read_as_grown(&rt, rt.alloc(), 3);
}

#[test]
fn the_text_of_200_is_read_as_its_problem(rt: HostRuntime) {
    is_read_as_grown(&rt, rt.alloc(), 200);
}
