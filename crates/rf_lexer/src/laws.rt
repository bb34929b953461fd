//! What holds of keywords, as the contract of a function that does nothing.
ghost use Rattle.rf_lexer.specs.Laws.{KeywordsAreTold};

/// The keywords are the words that the language keeps for itself.
pub fn keywords_law()
    ensures { KeywordsAreTold }
{}
