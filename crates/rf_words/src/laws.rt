ghost use Rattle.rf_words.specs.Laws.{OneCommandFits};

/// Words are at most one command.
pub fn one_command_law()
    ensures { OneCommandFits }
{}
