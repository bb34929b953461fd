//! What holds of the choice, each law as the contract of a function that does nothing.

ghost use Rattle.rf_decide.specs.Laws.{ChosenIsAllowed, MembersAreAllowed, NoneIsChosenWhereNoneIsAllowed};

/// Each decision among which one is chosen is allowed, and so is the one that is chosen; none is chosen exactly
/// where none is allowed.
pub fn choice_law()
    ensures members { MembersAreAllowed }
    ensures allowed { ChosenIsAllowed }
    ensures none { NoneIsChosenWhereNoneIsAllowed }
{}
