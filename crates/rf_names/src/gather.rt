//! What one statement declares and states, and the references of classes.

ghost use Rattle.std.specs.Prelude.{◌≡◌, ◌∷◌, ◌++◌, [], IfOk, OnOk, map};
ghost use Rattle.rf_names.specs.Declarations.{asserted_atom, asserted_truth, assertions_in, atoms_in, bounds_in, classes_in, is_error_word, items_in, items_of, items_or_none, listed_or_none, names_in, predicates_in, references_of, truth_of};

use crate::named::push_names_of;
use crate::parts::{
    AssertDeclaration, ClassDeclaration, ClauseDeclaration, PredicateDeclaration,
    ReferenceDeclaration,
};
use rf_syntax::{
    AssertionForm, AtomForm, BodyLiteral, Bound, Feature, Item, Name, NonEmpty, PredicateWord,
    Statement, ValueWord,
};
use rf_text::Items;
use rf_values::Truth;
use std::alloc::{AllocError, Global};

// Parts of statements.

/// Appends each item, lent.
pub fn push_all<'a, T>(out: &mut Vec<&'a T>, items: &'a [T]) -> Result<(), AllocError>
    ensures { OnOk result (map (λ i. i.now) out.new.items ≡ map (λ i. i.now) out.old.items
        ++ items.now) }
{
    for item in items {
        out.push(item)?;
    }
    Ok(())
}

/// Appends each item of a list that isn't empty, lent.
pub fn push_list<'a, T>(out: &mut Vec<&'a T>, list: &'a NonEmpty<T>) -> Result<(), AllocError>
    ensures { OnOk result (map (λ i. i.now) out.new.items ≡ map (λ i. i.now) out.old.items
        ++ items_of list.now) }
{
    out.push(&list.first)?;
    push_all(out, list.rest.as_slice())
}

/// Appends each item of a list that may be left out, lent.
pub fn push_listed<'a, T>(
    out: &mut Vec<&'a T>,
    list: &'a Option<Items<T>>,
) -> Result<(), AllocError>
    ensures { OnOk result (map (λ i. i.now) out.new.items ≡ map (λ i. i.now) out.old.items
        ++ listed_or_none list.now) }
{
    push_all(out, listed(list))
}

/// Appends the names of items.
pub fn push_names_of_items<'a>(
    out: &mut Vec<&'a Name>,
    list: &'a NonEmpty<Item>,
) -> Result<(), AllocError>
    ensures { OnOk result (map (λ n. n.now) out.new.items ≡ map (λ n. n.now) out.old.items
        ++ map (λ i. i.name) (items_of list.now)) }
{
    out.push(&list.first.name)?;
    push_names_of(out, list.rest.as_slice())
}

// The names after `extends`, which may be left out.
fn supers_of<'a>(
    alloc: Global,
    supers: &'a Option<NonEmpty<Name>>,
) -> Result<Vec<&'a Name>, AllocError>
    ensures { IfOk result (λ v. map (λ n. n.now) v.items ≡ items_or_none supers.now) }
{
    let mut names = Vec::new(alloc);
    if let Some(list) = supers {
        push_list(&mut names, list)?;
    }
    Ok(names)
}

// The items of a list that may be left out.
fn listed<T>(list: &Option<Items<T>>) -> &[T]
    ensures { result.now ≡ listed_or_none list.now }
{
    match list {
        Some(items) => items.as_slice(),
        None => &[],
    }
}

fn clause_of<'a>(
    alloc: Global,
    list: &'a NonEmpty<BodyLiteral>,
) -> Result<ClauseDeclaration<'a>, AllocError>
    ensures { IfOk result (λ c. c ≡ items_of list.now) }
{
    let mut literals = Vec::new(alloc);
    push_list(&mut literals, list)?;
    Ok(ClauseDeclaration { literals })
}

fn push_clauses<'a>(
    alloc: Global,
    out: &mut Vec<ClauseDeclaration<'a>>,
    clauses: &'a [NonEmpty<BodyLiteral>],
) -> Result<(), AllocError>
    ensures { OnOk result (out.new.items ≡ out.old.items ++ map items_of clauses.now) }
{
    for list in clauses {
        out.push(clause_of(alloc, list)?)?;
    }
    Ok(())
}

fn clauses_of<'a>(
    alloc: Global,
    clauses: &'a NonEmpty<NonEmpty<BodyLiteral>>,
) -> Result<Vec<ClauseDeclaration<'a>>, AllocError>
    ensures { IfOk result (λ v. v.items ≡ map items_of (items_of clauses.now)) }
{
    let mut forms = Vec::new(alloc);
    forms.push(clause_of(alloc, &clauses.first)?)?;
    push_clauses(alloc, &mut forms, clauses.rest.as_slice())?;
    Ok(forms)
}

fn is_error(word: PredicateWord) -> bool
    ensures { result ≡ is_error_word word }
{
    match word {
        PredicateWord::Pred => false,
        PredicateWord::Error | PredicateWord::ErrorPred => true,
    }
}

fn truth_of(word: ValueWord) -> Truth
    ensures { result ≡ truth_of word }
{
    match word {
        ValueWord::True => Truth::True,
        ValueWord::False => Truth::False,
        ValueWord::Unknown => Truth::Unknown,
        ValueWord::Error => Truth::Error,
    }
}

/// What is asserted.
pub fn atom_of(assertion: &AssertionForm) -> &AtomForm
    ensures { result.now ≡ asserted_atom assertion.now }
{
    match assertion {
        AssertionForm::Plain(atom) => atom,
        AssertionForm::Not(atom) => atom,
        AssertionForm::Maybe(atom) => atom,
        AssertionForm::Valued(atom, _) => atom,
    }
}

fn asserted(assertion: &AssertionForm) -> Truth
    ensures { result ≡ asserted_truth assertion.now }
{
    match assertion {
        AssertionForm::Plain(_) => Truth::True,
        AssertionForm::Not(_) => Truth::False,
        AssertionForm::Maybe(_) => Truth::Unknown,
        AssertionForm::Valued(_, word) => truth_of(*word),
    }
}

// What one statement adds to each list.

/// Appends the names that it declares in the space of classes, predicates and objects.
pub fn push_names<'a>(out: &mut Vec<&'a Name>, statement: &'a Statement) -> Result<(), AllocError>
    ensures { OnOk result (map (λ n. n.now) out.new.items ≡ map (λ n. n.now) out.old.items
        ++ names_in statement.now) }
{
    match statement {
        Statement::Class { name, .. } | Statement::Predicate { name, .. } => {
            out.push(name)?;
            Ok(())
        }
        Statement::Enum { name, literals } => {
            out.push(name)?;
            push_listed(out, literals)
        }
        Statement::Declare(names) | Statement::Atoms(names) => push_list(out, names),
        Statement::Multi(items) => push_names_of_items(out, items),
        Statement::Scope(_) | Statement::Assert { .. } => Ok(()),
    }
}

/// Appends the atoms that it declares.
pub fn push_atoms<'a>(out: &mut Vec<&'a Name>, statement: &'a Statement) -> Result<(), AllocError>
    ensures { OnOk result (map (λ n. n.now) out.new.items ≡ map (λ n. n.now) out.old.items
        ++ atoms_in statement.now) }
{
    match statement {
        Statement::Enum { literals, .. } => push_listed(out, literals),
        Statement::Atoms(names) => push_list(out, names),
        _ => Ok(()),
    }
}

/// Appends the class or the enum that it declares.
pub fn push_class<'a>(
    alloc: Global,
    out: &mut Vec<ClassDeclaration<'a>>,
    statement: &'a Statement,
) -> Result<(), AllocError>
    ensures { OnOk result (out.new.items ≡ out.old.items ++ classes_in statement.now) }
{
    match statement {
        Statement::Class {
            is_abstract,
            name,
            supers,
            body,
        } => out.push(ClassDeclaration {
            name,
            is_abstract: *is_abstract,
            is_enum: false,
            supers: supers_of(alloc, supers)?,
            features: listed(body),
            literals: &[],
        })?,
        Statement::Enum { name, literals } => out.push(ClassDeclaration {
            name,
            is_abstract: false,
            is_enum: true,
            supers: Vec::new(alloc),
            features: &[],
            literals: listed(literals),
        })?,
        _ => {}
    }
    Ok(())
}

/// Appends the predicate that it declares.
pub fn push_predicate<'a>(
    alloc: Global,
    out: &mut Vec<PredicateDeclaration<'a>>,
    statement: &'a Statement,
) -> Result<(), AllocError>
    ensures { OnOk result (out.new.items ≡ out.old.items ++ predicates_in statement.now) }
{
    if let Statement::Predicate {
        start,
        name,
        params,
        clauses,
    } = statement
    {
        out.push(PredicateDeclaration {
            is_error: is_error(*start),
            name,
            params: params.as_slice(),
            clauses: clauses_of(alloc, clauses)?,
        })?;
    }
    Ok(())
}

/// Appends the items of its `multi`.
pub fn push_items<'a>(out: &mut Vec<&'a Item>, statement: &'a Statement) -> Result<(), AllocError>
    ensures { OnOk result (map (λ i. i.now) out.new.items ≡ map (λ i. i.now) out.old.items
        ++ items_in statement.now) }
{
    if let Statement::Multi(items) = statement {
        push_list(out, items)?;
    }
    Ok(())
}

/// Appends the bounds of its `scope`.
pub fn push_bounds<'a>(out: &mut Vec<&'a Bound>, statement: &'a Statement) -> Result<(), AllocError>
    ensures { OnOk result (map (λ b. b.now) out.new.items ≡ map (λ b. b.now) out.old.items
        ++ bounds_in statement.now) }
{
    if let Statement::Scope(bounds) = statement {
        push_list(out, bounds)?;
    }
    Ok(())
}

/// Appends the assertion that it states.
pub fn push_assertion<'a>(
    out: &mut Vec<AssertDeclaration<'a>>,
    statement: &'a Statement,
) -> Result<(), AllocError>
    ensures { OnOk result (out.new.items ≡ out.old.items ++ assertions_in statement.now) }
{
    if let Statement::Assert {
        is_default,
        assertion,
    } = statement
    {
        out.push(AssertDeclaration {
            is_default: *is_default,
            atom: atom_of(assertion),
            value: asserted(assertion),
        })?;
    }
    Ok(())
}

// References.

// The references of the class of this number.
fn push_references<'a>(
    out: &mut Vec<ReferenceDeclaration<'a>>,
    source: u64,
    features: &'a [Feature],
) -> Result<(), AllocError>
    ensures { OnOk result (out.new.items ≡ out.old.items
        ++ map (λ f. record { source = source; feature = f }) features.now) }
{
    for feature in features {
        out.push(ReferenceDeclaration { source, feature })?;
    }
    Ok(())
}

fn push_class_references<'a>(
    out: &mut Vec<ReferenceDeclaration<'a>>,
    source: u64,
    class: &ClassDeclaration<'a>,
) -> Result<(), AllocError>
    ensures { OnOk result (out.new.items ≡ out.old.items
        ++ map (λ f. record { source = source; feature = f }) class.now.features) }
{
    push_references(out, source, class.features)
}

/// The references of the classes.
pub fn references_of<'a>(
    alloc: Global,
    classes: &[ClassDeclaration<'a>],
) -> Result<Vec<ReferenceDeclaration<'a>>, AllocError>
    ensures { IfOk result (λ v. v.items ≡ references_of 0 classes.now) }
{
    let mut references = Vec::new(alloc);
    for (number, class) in classes.iter().enumerate() {
        push_class_references(&mut references, number as u64, class)?;
    }
    Ok(references)
}
