//! The objects of the problem.

ghost use Rattle.std.specs.Prelude.{◌≡◌, IfOk, map};
ghost use Rattle.std.specs.List.{range_with_len};
ghost use Rattle.rf_grow.specs.Grown.{exactly, grown_classes, grown_objects, one_node, part_object};

use rf_problem::{Class, ObjectDecl, ObjectKind, ObjectName, new_objects};
use rf_text::{Text, push_number};
use rf_values::Count;
use std::alloc::{AllocError, Global};

/// Exactly so many.
pub fn exactly(n: u64) -> Count
    ensures { result ≡ exactly n }
{
    Count { lo: n, hi: Some(n) }
}

fn one_node(name: Text) -> ObjectDecl
    ensures { result ≡ one_node name }
{
    ObjectDecl {
        name: ObjectName::Named(name),
        count: exactly(1),
        kind: ObjectKind::Plain,
    }
}

fn part(alloc: Global, k: u32) -> Result<ObjectDecl, AllocError>
    ensures { IfOk result (λ object. object ≡ part_object k) }
{
    let mut name = Text::from_str(alloc, "p")?;
    push_number(alloc, &mut name, u64::from(k))?;
    Ok(one_node(name))
}

// Each part.
#[tactic(auto, using(crate::proofs::Rows::row_more))]
fn parts(alloc: Global, n: u32) -> Result<Vec<ObjectDecl>, AllocError>
    ensures { IfOk result (λ objects. objects.items ≡ map part_object (range_with_len 0 n)) }
{
    let mut objects = Vec::new(alloc);
    for k in 0..n {
        objects.push(part(alloc, k)?)?;
    }
    Ok(objects)
}

/// The whole, its parts and the new objects of these classes.
pub fn objects(alloc: Global, classes: &[Class], n: u32) -> Result<Vec<ObjectDecl>, AllocError>
    requires { classes.now ≡ grown_classes }
    ensures { IfOk result (λ objects. objects.items ≡ grown_objects n) }
{
    let mut objects = vec![in alloc; one_node(Text::from_str(alloc, "t")?)]?;
    objects.append(&mut parts(alloc, n)?)?;
    objects.append(&mut new_objects(alloc, classes)?)?;
    Ok(objects)
}
