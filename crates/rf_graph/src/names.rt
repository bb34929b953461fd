//! The classes, references and objects of a problem by their names.
ghost use Rattle.std.specs.Prelude.{◌≡◌, ℕ, length, IfOk, IfSome, IfNone};
ghost use Rattle.rf_graph.specs.Document.{class_name, object_name, reference_name};
ghost use Rattle.rf_graph.specs.Names.{AreNames, IsCalled, IsIndex, IsNameOf};

use crate::print::{push_class, push_object, push_reference};
use rf_problem::Problem;
use rf_text::Text;
use std::alloc::{AllocError, Global};
use std::collections::BTreeMap;

// Names, and the number of each, found without a scan of them all.
#[derive(Drop)]
struct NameIndex<'n> {
    names: &'n [Text],
    numbers: BTreeMap<&'n [u8], u64>,
    ghost exact: { IsIndex names.now (length names.now) numbers },
}

impl<'n> NameIndex<'n> {
    fn new(alloc: Global, names: &'n [Text]) -> Result<NameIndex<'n>, AllocError>
        ensures { IfOk result (λ index. index.names.now ≡ names.now) }
    {
        let mut numbers = BTreeMap::new(alloc);
        for (number, name) in names.iter().enumerate() {
            numbers.insert(name.as_str().as_bytes(), number as u64)?;
        }
        Ok(NameIndex { names, numbers })
    }

    fn find(&self, name: &[u8]) -> Option<u64>
        ensures found { IfSome result (λ k. IsCalled self.now.names.now k name.now) }
        ensures none { IfNone result ((k : ℕ) → IsCalled self.now.names.now k name.now → ⊥) }
    {
        self.numbers.get(name).copied()
    }
}

// The names of all classes as documents write them.
fn class_names(alloc: Global, problem: &Problem) -> Result<Vec<Text>, AllocError>
    ensures { IfOk result (λ names. AreNames (length problem.now.classes) (class_name problem.now) names.items) }
{
    let mut names = Vec::new(alloc);
    for class in 0..problem.classes.as_slice().len() {
        let mut name = Text::new(alloc);
        push_class(alloc, &mut name, problem, class as u32)?;
        names.push(name)?;
    }
    Ok(names)
}

// The names of all references.
fn reference_names(alloc: Global, problem: &Problem) -> Result<Vec<Text>, AllocError>
    ensures { IfOk result (λ names. AreNames (length problem.now.references) (reference_name problem.now) names.items) }
{
    let mut names = Vec::new(alloc);
    for reference in 0..problem.references.len() {
        let mut name = Text::new(alloc);
        push_reference(alloc, &mut name, problem, reference as u32)?;
        names.push(name)?;
    }
    Ok(names)
}

// The names of all objects.
fn object_names(alloc: Global, problem: &Problem) -> Result<Vec<Text>, AllocError>
    ensures { IfOk result (λ names. AreNames (length problem.now.objects) (object_name problem.now) names.items) }
{
    let mut names = Vec::new(alloc);
    for object in 0..problem.objects.len() {
        let mut name = Text::new(alloc);
        push_object(alloc, &mut name, problem, object as u64)?;
        names.push(name)?;
    }
    Ok(names)
}

/// The names that a problem's graph documents speak of, as they are written there.
#[derive(Drop)]
pub struct Names<'p> {
    pub problem: &'p Problem,
    classes: Vec<Text>,
    references: Vec<Text>,
    objects: Vec<Text>,
    ghost of_classes: { AreNames (length problem.now.classes) (class_name problem.now) classes.items },
    ghost of_references: { AreNames (length problem.now.references) (reference_name problem.now) references.items },
    ghost of_objects: { AreNames (length problem.now.objects) (object_name problem.now) objects.items },
}

impl<'p> Names<'p> {
    pub fn new(alloc: Global, problem: &'p Problem) -> Result<Names<'p>, AllocError>
        ensures { IfOk result (λ names. names.problem.now ≡ problem.now) }
    {
        Ok(Names {
            problem,
            classes: class_names(alloc, problem)?,
            references: reference_names(alloc, problem)?,
            objects: object_names(alloc, problem)?,
        })
    }
}

/// The numbers of the classes, references and objects of a problem by those names.
#[derive(Drop)]
pub struct Numbers<'n> {
    pub problem: &'n Problem,
    classes: NameIndex<'n>,
    references: NameIndex<'n>,
    objects: NameIndex<'n>,
    ghost of_classes: { AreNames (length problem.now.classes) (class_name problem.now) classes.names.now },
    ghost of_references: { AreNames (length problem.now.references) (reference_name problem.now) references.names.now },
    ghost of_objects: { AreNames (length problem.now.objects) (object_name problem.now) objects.names.now },
}

impl<'n> Numbers<'n> {
    pub fn new(alloc: Global, names: &'n Names<'n>) -> Result<Numbers<'n>, AllocError>
        ensures { IfOk result (λ numbers. numbers.problem.now ≡ names.now.problem.now) }
    {
        Ok(Numbers {
            problem: names.problem,
            classes: NameIndex::new(alloc, names.classes.as_slice())?,
            references: NameIndex::new(alloc, names.references.as_slice())?,
            objects: NameIndex::new(alloc, names.objects.as_slice())?,
        })
    }

    /// The class of this name; None where there is none.
    pub fn find_class(&self, name: &[u8]) -> Option<u32>
        ensures found { IfSome result (λ class. IsNameOf (length self.now.problem.now.classes) (class_name self.now.problem.now) class name.now) }
        ensures none { IfNone result ((class : ℕ) → IsNameOf (length self.now.problem.now.classes) (class_name self.now.problem.now) class name.now → ⊥) }
    {
        let class = self.classes.find(name)?;
        Some(class as u32)
    }

    /// The reference of this name; None where there is none.
    pub fn find_reference(&self, name: &[u8]) -> Option<u32>
        ensures found { IfSome result (λ reference. IsNameOf (length self.now.problem.now.references) (reference_name self.now.problem.now) reference name.now) }
        ensures none { IfNone result ((reference : ℕ) → IsNameOf (length self.now.problem.now.references) (reference_name self.now.problem.now) reference name.now → ⊥) }
    {
        let reference = self.references.find(name)?;
        Some(reference as u32)
    }

    /// The object of this name; None where there is none.
    pub fn find_object(&self, name: &[u8]) -> Option<u64>
        ensures found { IfSome result (λ object. IsNameOf (length self.now.problem.now.objects) (object_name self.now.problem.now) object name.now) }
        ensures none { IfNone result ((object : ℕ) → IsNameOf (length self.now.problem.now.objects) (object_name self.now.problem.now) object name.now → ⊥) }
    {
        self.objects.find(name)
    }
}
