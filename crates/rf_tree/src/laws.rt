//! What holds of trees and their lines, each law as the contract of a function that does nothing.

ghost use Rattle.rf_tree.specs.Laws.{DocumentHasLines, DocumentIsOfOneList, LeftAreHoles, LinesAreOnce, MetLineEndsLines, MetLineIsBad, OpenIsComputed, PrefixesStand, ReadLinesAreLines, StandIsComputed, ValidIsComputed, ValidIsWhole};

/// Lines are valid exactly where they leave no state to close, and no line can stand after them.
pub fn valid_law()
    ensures computed { ValidIsComputed }
    ensures whole { ValidIsWhole }
{}

/// Lines are open exactly where they leave some state to close, and so many decisions stand among them;
/// what they leave are the states at the holes of their tree.
pub fn open_law()
    ensures computed { OpenIsComputed }
    ensures holes { LeftAreHoles }
{}

/// Lines can stand exactly where there is an answer to what they leave, be it no state. Where lines can stand, so can the first
/// of them.
pub fn stand_law()
    ensures computed { StandIsComputed }
    ensures prefix { PrefixesStand }
{}

/// A document is of one list of lines, and its bytes begin with these.
pub fn document_law()
    ensures once { DocumentIsOfOneList }
    ensures lines { DocumentHasLines }
{}

/// Bytes begin with one list of lines, and a reader gives that list, however the bytes are cut into pieces.
pub fn reading_law()
    ensures once { LinesAreOnce }
    ensures read { ReadLinesAreLines }
{}

/// A bad line that was met is the first bad one of all that begins so, and the lines before it are all that are read.
pub fn bad_line_law()
    ensures bad { MetLineIsBad }
    ensures lines { MetLineEndsLines }
{}
