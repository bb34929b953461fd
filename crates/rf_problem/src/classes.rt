//! The classes of a problem.

ghost use Rattle.std.specs.Prelude.{◌≡◌, ◌<◌, ◌≤◌, ℕ, length, IfOk};
ghost use Rattle.std.specs.FinSet.{contains};
ghost use Rattle.rf_problem.specs.Classes.{is_below, is_concrete};

use crate::Class;
use crate::class_rows::{concrete_classes, rows_below};
use rf_text::Items;
use rf_values::ClassSet;
use std::alloc::{AllocError, Global};
use std::fmt;
use std::marker::Model;
use std::ops::DerefSlice;

/// A list of classes, and which of them are below which in a table. Contracts see the list.
#[derive(Drop)]
pub struct Classes {
    list: Items<Class>,
    // The classes below each class.
    rows: Vec<ClassSet>,
    // The classes that nodes may have.
    with_nodes: ClassSet,
}

impl Model for Classes {
    ghost use Rattle.std.specs.Prelude.{List};
    ghost use Rattle.rf_problem.specs.declared.class.Class.{Class as Kind};
    ghost use Rattle.rf_problem.specs.Above.{IsOrder};

    ghost Value = { List Kind };

    ghost view = { λ c. c.list };

    ghost invariant = { λ c. IsOrder c.list c.rows.items c.with_nodes };
}

impl fmt::Debug for Classes {
    fn fmt<W: fmt::Write>(&self, f: &mut fmt::Formatter<W>) -> fmt::Result {
        fmt::Debug::fmt(&self.list, f)
    }
}

impl DerefSlice for Classes {
    type Elem = Class;

    ghost deref_gives = { λ it xs. xs ≡ it };

    fn deref(&self) -> &[Class]
        ensures { result.now ≡ self.now }
    {
        self.list.as_slice()
    }
}

impl Classes {
    /// These classes, with their table. It takes as many steps as the classes extend others, once or, where subclasses
    /// stand before what they extend, at most once for each class, and a step for each two classes.
    pub fn of(alloc: Global, classes: Vec<Class>) -> Result<Classes, AllocError>
        requires { length classes.items ≤ 256 }
        ensures { IfOk result (λ made. made ≡ classes.items) }
    {
        let rows = rows_below(alloc, &classes)?;
        let with_nodes = concrete_classes(&classes);
        Ok(Classes {
            list: Items::from_vec(classes),
            rows,
            with_nodes,
        })
    }

    pub fn as_slice(&self) -> &[Class]
        ensures { result.now ≡ self.now }
    {
        self.list.as_slice()
    }

    /// The classes that are class `top` or extend it, directly or through others.
    pub fn below(&self, top: u32) -> ClassSet
        requires { top < length self.now }
        ensures { (c : ℕ) → contains result c ≡ is_below self.now c top }
    {
        self.rows[top as usize]
    }

    /// The classes that nodes may have.
    pub fn concrete(&self) -> ClassSet
        ensures { (c : ℕ) → contains result c ≡ is_concrete self.now c }
    {
        self.with_nodes
    }
}
