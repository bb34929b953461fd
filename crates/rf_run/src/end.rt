use crate::Refusal;
use rf_text::Text;

/// Which answer a reply is.
#[derive(Clone, Copy, Debug, PartialEq, Eq)]
pub enum Sign {
    Yes,
    No,
    /// The budget was spent, or a tree is unfinished.
    Unfinished,
}

/// An answer: what is written on the output, and its sign.
#[derive(Debug, Drop)]
pub struct Reply {
    pub text: Text,
    pub sign: Sign,
}

/// How a run ends where nothing cuts it short.
#[derive(Debug, Drop)]
pub enum End {
    /// The words aren't a command.
    Usage,
    /// The input is refused by name.
    Refused(Refusal),
    Answered(Reply),
}

/// What cuts a run short.
#[derive(Clone, Copy, Debug, PartialEq, Eq)]
pub enum Cut {
    /// A read of a file that the words name failed.
    ReadFault,
    /// Memory ran out.
    Memory,
}
