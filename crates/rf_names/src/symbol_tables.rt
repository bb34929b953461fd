//! The classes, the predicates and the references by their names, and what symbols stand for.

ghost use Rattle.std.specs.Prelude.{◌≡◌, ◌<◌, ◌^◌, ℕ, IfOk, IfSome, IsTrue, map, length, slice_index_or, false};
ghost use Rattle.rf_names.specs.Declarations.{AreFew};
ghost use Rattle.rf_names.specs.LookUp.{assertion_symbols, class_named, extends_somehow, literal_symbols, members_of_some, predicate_named, references_named, sense_of, sensed, symbols_named};
ghost use Rattle.rf_names.specs.Tables.{AreListed, new_before};

use crate::Sense;
use crate::both::both;
use crate::class_tables::ClassTables;
use crate::declarations::Declarations;
use crate::listing::{numbers_by_name, numbers_under};
use crate::members::{declared_above, declared_by};
use crate::named::numbered;
use crate::numbering::Numbering;
use crate::parts::AssertDeclaration;
use crate::sensed::SensedAssertion;
use crate::senses::{joined, own_sense, sense_of_class, sense_of_predicate, sense_of_references};
use rf_problem::Symbol;
use rf_syntax::SymbolName;
use std::alloc::{AllocError, Global};
use std::collections::BTreeMap;

/// The tables of what symbols may stand for.
#[derive(Drop)]
pub struct SymbolTables<'a> {
    pub declared: &'a Declarations<'a>,
    classes: ClassTables<'a>,
    predicates: Numbering<'a>,
    // The numbers of the references of each name.
    references: BTreeMap<&'a str, Vec<u32>>,
    ghost of_classes: { classes.declared.now ≡ declared.now },
    ghost of_predicates: { map (λ n. n.now) predicates.names.items
        ≡ map (λ p. p.name) declared.now.predicates },
    ghost of_references: { AreListed (map (λ r. r.feature.name) declared.now.references) references },
    ghost few_predicates: { length declared.now.predicates < 2 ^ 32 },
}

impl<'a> SymbolTables<'a> {
    pub fn of(alloc: Global, declared: &'a Declarations<'a>) -> Result<SymbolTables<'a>, AllocError>
        requires { AreFew declared.now }
        ensures { IfOk result (λ tables. tables.declared.now ≡ declared.now) }
    {
        let (classes, (predicates, references)) = both(
            ClassTables::of(alloc, declared),
            both(
                numbered(alloc, declared.predicates.as_slice()),
                numbers_by_name(alloc, declared.references.as_slice()),
            ),
        )?;
        Ok(SymbolTables {
            declared,
            classes,
            predicates,
            references,
        })
    }

    /// The number of the class of this name.
    pub fn class_named(&self, text: &str) -> Option<u32>
        ensures { result ≡ class_named self.now.declared.now text.now }
    {
        self.classes.named(text)
    }

    /// The number of the predicate of this name.
    pub fn predicate_named(&self, text: &str) -> Option<u32>
        ensures { result ≡ predicate_named self.now.declared.now text.now }
    {
        match self.predicates.find(text) {
            Some(number) => Some(number as u32),
            None => None,
        }
    }

    /// The numbers of the references of this name.
    fn references_named(&self, text: &str) -> &[u32]
        ensures { result.now ≡ references_named self.now.declared.now text.now }
    {
        numbers_under(&self.references, text)
    }

    /// For each class, whether this class extends it, directly or through others.
    pub fn classes_above(&self, alloc: Global, class: u32) -> Result<Vec<bool>, AllocError>
        requires { class < length self.now.declared.now.classes }
        ensures len { IfOk result (λ marks. length marks.items
            ≡ length self.now.declared.now.classes) }
        ensures value { IfOk result (λ marks. (k : ℕ) → k < length self.now.declared.now.classes
            → slice_index_or marks.items k false ≡ extends_somehow self.now.declared.now class k) }
    {
        self.classes.above(alloc, class)
    }

    /// Whether ranks of the classes show that no class extends itself, directly or through others.
    /// The time grows with the number of classes and of the names that they extend together.
    ///
    /// That they show it wherever it is so is tested, not proved.
    pub fn is_clear_of_cycles(&self, alloc: Global) -> Result<bool, AllocError>
        ensures { IfOk result (λ yes. IsTrue yes
            → (c : ℕ) → extends_somehow self.now.declared.now c c ≡ false) }
    {
        self.classes.has_ranks(alloc)
    }

    /// How many classes before this one have an object for their new nodes.
    pub fn new_before(&self, class: u32) -> u64
        requires { class < length self.now.declared.now.classes }
        ensures value { result ≡ new_before self.now.declared.now.classes class }
        ensures few { result < 2 ^ 32 }
    {
        self.classes.new_before(class)
    }

    /// The references that a member's name stands for in a class; none where the class isn't there.
    pub fn members(
        &self,
        alloc: Global,
        class: Option<u32>,
        text: &str,
    ) -> Result<Vec<u32>, AllocError>
        requires { IfSome class (λ c. c < length self.now.declared.now.classes) }
        ensures { IfOk result (λ members. members.items
            ≡ members_of_some self.now.declared.now class text.now) }
    {
        let Some(class) = class else {
            return Ok(Vec::new(alloc));
        };
        let named = self.references_named(text);
        let own = declared_by(alloc, self.declared, class, named)?;
        if !own.is_empty() {
            return Ok(own);
        }
        let above = self.classes_above(alloc, class)?;
        let inherited = declared_above(alloc, self.declared, above.as_slice(), named)?;
        Ok(inherited)
    }

    // What the name of a class, a predicate or references stands for.
    fn sense_alone(&self, text: &str) -> Sense
        ensures { result ≡ sense_of (symbols_named self.now.declared.now text.now) }
    {
        joined(
            sense_of_class(self.class_named(text)),
            joined(
                sense_of_predicate(self.predicate_named(text)),
                sense_of_references(self.references_named(text)),
            ),
        )
    }

    // What the name of a member of the class of this name stands for.
    fn sense_of_member(&self, alloc: Global, class: &str, member: &str) -> Result<Sense, AllocError>
        ensures { IfOk result (λ sense. sense ≡ sense_of (map Symbol.Reference
            (members_of_some self.now.declared.now (class_named self.now.declared.now class.now) member.now))) }
    {
        let members = self.members(alloc, self.class_named(class), member)?;
        Ok(sense_of_references(members.as_slice()))
    }

    /// What a symbol of a literal stands for.
    pub fn literal_sense(&self, alloc: Global, symbol: &SymbolName) -> Result<Sense, AllocError>
        ensures { IfOk result (λ sense. sense
            ≡ sense_of (literal_symbols self.now.declared.now symbol.now)) }
    {
        let text = symbol.name.text.as_str();
        match &symbol.member {
            Some(member) => self.sense_of_member(alloc, text, member.text.as_str()),
            None => Ok(self.sense_alone(text)),
        }
    }

    // What a symbol of an assertion stands for.
    fn assertion_sense(&self, alloc: Global, symbol: &SymbolName) -> Result<Sense, AllocError>
        ensures { IfOk result (λ sense. sense
            ≡ sense_of (assertion_symbols self.now.declared.now symbol.now)) }
    {
        let text = symbol.name.text.as_str();
        match &symbol.member {
            Some(member) => self.sense_of_member(alloc, text, member.text.as_str()),
            None => Ok(joined(self.sense_alone(text), own_sense(text))),
        }
    }

    fn sensed(
        &self,
        alloc: Global,
        form: &'a AssertDeclaration<'a>,
    ) -> Result<SensedAssertion<'a>, AllocError>
        ensures { IfOk result (λ assertion. assertion ≡ sensed self.now.declared.now form.now) }
    {
        let sense = self.assertion_sense(alloc, &form.atom.symbol)?;
        Ok(SensedAssertion { form, sense })
    }

    /// The assertions, and what the symbol of each stands for.
    pub fn sensed_assertions(&self, alloc: Global) -> Result<Vec<SensedAssertion<'a>>, AllocError>
        ensures { IfOk result (λ assertions. assertions.items
            ≡ map (sensed self.now.declared.now) self.now.declared.now.assertions) }
    {
        let declared = self.declared;
        let mut assertions = Vec::new(alloc);
        for form in declared.assertions.as_slice() {
            assertions.push(self.sensed(alloc, form)?)?;
        }
        Ok(assertions)
    }
}
