ghost use Rattle.rf_problem.specs.Valid.{AreAssertions, AreClasses, AreObjects, ArePredicates, AreReferences, AreScopes};

use crate::{Assertions, Classes, ObjectDecl, Predicate, Reference, Scope};
use rf_text::Items;

/// A problem: what is declared and stated, each number the place of what it stands for.
#[derive(Debug, Drop)]
pub struct Problem {
    pub classes: Classes,
    pub references: Items<Reference>,
    pub predicates: Items<Predicate>,
    /// The named objects, and after them one `C::new` for each class that is neither abstract nor an enum.
    pub objects: Items<ObjectDecl>,
    pub assertions: Assertions,
    pub scopes: Items<Scope>,
    ghost classes_fit: { AreClasses classes },
    ghost references_fit: { AreReferences classes references },
    ghost predicates_fit: { ArePredicates classes references objects predicates },
    ghost objects_fit: { AreObjects classes objects },
    ghost assertions_fit: { AreAssertions classes references predicates objects assertions },
    ghost scopes_fit: { AreScopes classes scopes },
}
