//! What the names of a tree stand for, found without a scan of all that it declares.

ghost use Rattle.std.specs.Prelude.{◌≡◌, ◌<◌, ℕ, IfOk, IfSome, IsTrue, map, length, slice_index_or, false};
ghost use Rattle.std.specs.List.{list_any};
ghost use Rattle.std.specs.Option.{option_map};
ghost use Rattle.rf_names.specs.Declarations.{AreFew};
ghost use Rattle.rf_names.specs.LookUp.{class_named, enum_of, extends_somehow, is_literal_of, item_named, literal_symbols, members_of_some, named_objects, new_object_of, object_named, predicate_named, sense_of, sensed};
ghost use Rattle.rf_names.specs.Texts.{reads};

use crate::Sense;
use crate::both::both;
use crate::declarations::Declarations;
use crate::enum_tables::EnumTables;
use crate::object_tables::ObjectTables;
use crate::sensed::SensedAssertion;
use crate::symbol_tables::SymbolTables;
use rf_syntax::{Item, Name, SymbolName};
use std::alloc::{AllocError, Global};

/// The names of a tree.
#[derive(Drop)]
pub struct Names<'a> {
    pub declared: &'a Declarations<'a>,
    symbols: SymbolTables<'a>,
    enums: EnumTables<'a>,
    objects: ObjectTables<'a>,
    assertions: Vec<SensedAssertion<'a>>,
    ghost of_symbols: { symbols.declared.now ≡ declared.now },
    ghost of_enums: { enums.declared.now ≡ declared.now },
    ghost of_objects: { objects.declared.now ≡ declared.now },
    ghost of_assertions: { assertions.items ≡ map (sensed declared.now) declared.now.assertions },
}

// The tables of symbols, and the assertions with what their symbols stand for.
fn symbols_and_assertions<'a>(
    alloc: Global,
    declared: &'a Declarations<'a>,
) -> Result<(SymbolTables<'a>, Vec<SensedAssertion<'a>>), AllocError>
    requires { AreFew declared.now }
    ensures symbols { IfOk result (λ pair. pair.0.declared.now ≡ declared.now) }
    ensures assertions { IfOk result (λ pair. pair.1.items
        ≡ map (sensed declared.now) declared.now.assertions) }
{
    let symbols = SymbolTables::of(alloc, declared)?;
    let assertions = symbols.sensed_assertions(alloc)?;
    Ok((symbols, assertions))
}

impl<'a> Names<'a> {
    /// The tables of what is declared, each made in one pass.
    pub fn of(alloc: Global, declared: &'a Declarations<'a>) -> Result<Names<'a>, AllocError>
        requires { AreFew declared.now }
        ensures { IfOk result (λ names. names.declared.now ≡ declared.now) }
    {
        let (enums, (objects, (symbols, assertions))) = both(
            EnumTables::of(alloc, declared),
            both(
                ObjectTables::of(alloc, declared),
                symbols_and_assertions(alloc, declared),
            ),
        )?;
        Ok(Names {
            declared,
            symbols,
            enums,
            objects,
            assertions,
        })
    }

    /// The number of the class of this name.
    pub fn class_named(&self, text: &str) -> Option<u32>
        ensures { result ≡ class_named self.now.declared.now text.now }
    {
        self.symbols.class_named(text)
    }

    /// The number of the predicate of this name.
    pub fn predicate_named(&self, text: &str) -> Option<u32>
        ensures { result ≡ predicate_named self.now.declared.now text.now }
    {
        self.symbols.predicate_named(text)
    }

    /// For each class, whether this class extends it, directly or through others.
    pub fn classes_above(&self, alloc: Global, class: u32) -> Result<Vec<bool>, AllocError>
        requires { class < length self.now.declared.now.classes }
        ensures len { IfOk result (λ marks. length marks.items
            ≡ length self.now.declared.now.classes) }
        ensures value { IfOk result (λ marks. (k : ℕ) → k < length self.now.declared.now.classes
            → slice_index_or marks.items k false ≡ extends_somehow self.now.declared.now class k) }
    {
        self.symbols.classes_above(alloc, class)
    }

    /// Whether ranks of the classes show that no class extends itself, directly or through others.
    /// The time grows with the number of classes and of the names that they extend together.
    ///
    /// That they show it wherever it is so is tested, not proved.
    pub fn is_clear_of_cycles(&self, alloc: Global) -> Result<bool, AllocError>
        ensures { IfOk result (λ yes. IsTrue yes
            → (c : ℕ) → extends_somehow self.now.declared.now c c ≡ false) }
    {
        self.symbols.is_clear_of_cycles(alloc)
    }

    /// The references that a member's name stands for in a class; none where the class isn't there.
    pub fn members(
        &self,
        alloc: Global,
        class: Option<u32>,
        text: &str,
    ) -> Result<Vec<u32>, AllocError>
        requires { IfSome class (λ c. c < length self.now.declared.now.classes) }
        ensures { IfOk result (λ members. members.items
            ≡ members_of_some self.now.declared.now class text.now) }
    {
        self.symbols.members(alloc, class, text)
    }

    /// What a symbol of a literal stands for.
    pub fn literal_sense(&self, alloc: Global, symbol: &SymbolName) -> Result<Sense, AllocError>
        ensures { IfOk result (λ sense. sense
            ≡ sense_of (literal_symbols self.now.declared.now symbol.now)) }
    {
        self.symbols.literal_sense(alloc, symbol)
    }

    /// The assertions, and what the symbol of each stands for.
    pub fn assertions(&self) -> &[SensedAssertion<'a>]
        ensures { result.now ≡ map (sensed self.now.declared.now) self.now.declared.now.assertions }
    {
        self.assertions.as_slice()
    }

    /// The named objects, each by the name at which it occurs first.
    pub fn objects(&self) -> &[&'a Name]
        ensures { map (λ n. n.now) result.now ≡ named_objects self.now.declared.now }
    {
        self.objects.names()
    }

    /// The number of the object of this name.
    pub fn object_named(&self, text: &str) -> Option<u64>
        ensures { result ≡ object_named self.now.declared.now text.now }
    {
        self.objects.named(text)
    }

    /// The number of the object that the new nodes of a class come from.
    pub fn new_object_of(&self, class: u32) -> u64
        requires { class < length self.now.declared.now.classes }
        ensures { result ≡ new_object_of self.now.declared.now class }
    {
        self.objects.names().len() as u64 + self.symbols.new_before(class)
    }

    /// The item of a `multi` that names this object.
    pub fn item_named(&self, text: &str) -> Option<&'a Item>
        ensures { option_map (λ i. i.now) result ≡ item_named self.now.declared.now text.now }
    {
        self.objects.item_named(text)
    }

    /// Whether an atom has this name.
    pub fn is_atom(&self, text: &str) -> bool
        ensures { result ≡ list_any (reads text.now) self.now.declared.now.atoms }
    {
        let declared = self.declared;
        declared.atoms.contains(text)
    }

    /// The number of the first enum that has this literal.
    pub fn enum_of(&self, text: &str) -> Option<u32>
        ensures { result ≡ enum_of self.now.declared.now text.now }
    {
        self.enums.of_literal(text)
    }

    /// Whether the class of this number is an enum with this literal.
    pub fn is_literal_of(&self, class: Option<u32>, text: &str) -> bool
        ensures { result ≡ is_literal_of self.now.declared.now class text.now }
    {
        self.enums.has_literal(class, text)
    }
}
