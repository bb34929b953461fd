//! The first item past a limit, by the name that shows where it stands.

ghost use Rattle.std.specs.Prelude.{◌≡◌, map};
ghost use Rattle.rf_syntax.specs.declared.name.Name.{Name};
ghost use Rattle.rf_names.specs.Bodies.{first_name};
ghost use Rattle.rf_names.specs.Offsets.{least_of};
ghost use Rattle.rf_limits.specs.Limits.{first_past};

use rf_names::{AssertDeclaration, ClassDeclaration, PredicateDeclaration, ReferenceDeclaration};
use rf_syntax::{BodyLiteral, Bound, Name, Param};

/// What has a name that shows where it stands.
pub trait Named {
    ghost name_of: { Self → Name };

    fn name(&self) -> &Name
        ensures { result.now ≡ name_of self.now };
}

impl<'a> Named for ClassDeclaration<'a> {
    ghost name_of = { λ c. c.name };

    fn name(&self) -> &Name {
        self.name
    }
}

impl<'a> Named for PredicateDeclaration<'a> {
    ghost name_of = { λ p. p.name };

    fn name(&self) -> &Name {
        self.name
    }
}

impl<'a> Named for ReferenceDeclaration<'a> {
    ghost name_of = { λ r. r.feature.name };

    fn name(&self) -> &Name {
        &self.feature.name
    }
}

impl<'a> Named for AssertDeclaration<'a> {
    ghost name_of = { λ a. a.atom.symbol.name };

    fn name(&self) -> &Name {
        &self.atom.symbol.name
    }
}

impl Named for Bound {
    ghost name_of = { λ b. b.name };

    fn name(&self) -> &Name {
        &self.name
    }
}

impl Named for Param {
    ghost name_of = { λ p. p.name };

    fn name(&self) -> &Name {
        &self.name
    }
}

impl Named for Name {
    ghost name_of = { λ n. n };

    fn name(&self) -> &Name {
        self
    }
}

impl Named for BodyLiteral {
    ghost name_of = { first_name };

    fn name(&self) -> &Name {
        match self {
            BodyLiteral::Call { symbol, .. } => &symbol.name,
            BodyLiteral::Same(first, _) => first,
            BodyLiteral::Differ(first, _) => first,
        }
    }
}

/// The offset of the first item past a limit.
#[tactic(auto, using(crate::proofs::Past::past_item))]
pub fn past<T: Named>(limit: usize, items: &[T]) -> Option<u64>
    ensures { result ≡ least_of (first_past limit T.name_of items.now) }
{
    let item = items.get(limit)?;
    Some(item.name().at)
}

/// The same for items that are lent.
#[tactic(auto, using(crate::proofs::Past::past_lent_item))]
pub fn past_lent<T: Named>(limit: usize, items: &[&T]) -> Option<u64>
    ensures { result ≡ least_of (first_past limit T.name_of (map (λ i. i.now) items.now)) }
{
    let item = items.get(limit)?;
    Some(item.name().at)
}
