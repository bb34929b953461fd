//! What holds of rules that are applied one after another and of searches, each law as the contract of a function that does nothing.

ghost use Rattle.rf_search.specs.Laws.{CourseIsUnique, CourseStands, CoursesArePrefixes, EnoughIsFinished, FamiliesAreInOrder, OutcomeIsRight, OutcomeIsShallow, OutcomeIsUnique, RuleNarrows};

use rf_final::final_law;

/// A rule that fires and is no closing leaves less to be narrowed.
pub fn narrowing_law()
    ensures { RuleNarrows }
{}

/// The least rule that fires is that of the first family that has one.
pub fn families_law()
    ensures { FamiliesAreInOrder }
{}

/// The lines of a course can stand. A problem and a seed have one course of each length at most, and of two courses
/// of theirs one is a prefix of the other.
pub fn course_law()
    ensures stand { CourseStands }
    ensures unique { CourseIsUnique }
    ensures prefix { CoursesArePrefixes }
{}

/// A problem, a seed and a budget have at most one outcome.
pub fn outcome_law()
    ensures { OutcomeIsUnique }
{}

/// An outcome is right.
pub fn right_law()
    ensures { OutcomeIsRight }
{
    final_law();
}

/// Where a scope bounds all nodes, no way of the lines of an outcome holds more decisions than the depth of the problem,
/// and with a budget of two to the power of the depth the outcome is a graph or a refutation.
pub fn bound_law()
    ensures shallow { OutcomeIsShallow }
    ensures enough { EnoughIsFinished }
{}
