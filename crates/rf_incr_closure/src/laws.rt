//! When rows are kept, each law as the contract of a function that does nothing.

ghost use Rattle.rf_incr_closure.specs.Laws.{OtherRowsStay, OtherTagsKeepRows, RowIsOfItsKeys, RowsAreOfTheirTag};

/// A row is a matter of its own keys.
pub fn row_keys_law()
    ensures { RowIsOfItsKeys }
{}

/// The rows of a tag are a matter of the keys that begin with it.
pub fn tag_keys_law()
    ensures { RowsAreOfTheirTag }
{}

/// A row is kept where another is made anew.
pub fn other_rows_law()
    ensures { OtherRowsStay }
{}

/// The rows of a tag are kept where only entries of another tag change.
pub fn other_tags_law()
    ensures { OtherTagsKeepRows }
{}
