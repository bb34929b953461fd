ghost use Rattle.std.specs.Prelude.{◌≡◌, ◌≤◌, length, map, IfOk};
ghost use Rattle.rf_problem.specs.Valid.{has_new, new_numbers, new_object};

use crate::{Class, ObjectDecl, ObjectKind, ObjectName};
use rf_values::Count;
use std::alloc::{AllocError, Global};

fn new_object(class: u32) -> ObjectDecl
    ensures { result ≡ new_object class }
{
    ObjectDecl {
        name: ObjectName::NewOf(class),
        count: Count { lo: 0, hi: None },
        kind: ObjectKind::Plain,
    }
}

/// Whether a class has an object that its new nodes come from: it is neither abstract nor an enum.
pub fn has_new(class: &Class) -> bool
    ensures { result ≡ has_new class.now }
{
    !class.is_abstract && !class.is_enum
}

/// The objects that the new nodes of these classes come from, in the order of the classes: one
/// `C::new` for each class that has one. A problem has them after its named objects.
pub fn new_objects(alloc: Global, classes: &[Class]) -> Result<Vec<ObjectDecl>, AllocError>
    requires { length classes.now ≤ 256 }
    ensures { IfOk result (λ objects.
        objects.items ≡ map new_object (new_numbers 0 classes.now)) }
{
    let mut objects = Vec::new(alloc);
    for (number, class) in classes.iter().enumerate() {
        if has_new(class) {
            objects.push(new_object(number as u32))?;
        }
    }
    Ok(objects)
}
