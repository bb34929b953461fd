ghost use Rattle.std.specs.Prelude.{◌≡◌};
ghost use Rattle.rf_run.specs.Code.{code_of};

/// How a run ends. Its number is the exit status of the program.
#[derive(Clone, Copy, Debug, PartialEq, Eq)]
pub enum Status {
    /// The command's yes.
    Yes = 0,
    /// The command's no.
    No = 1,
    /// The words aren't a command.
    Usage = 2,
    /// The input was refused by name.
    Refused = 3,
    /// A read of a file that the words name failed in this run.
    ReadFault = 4,
    /// A write of the answer failed in this run.
    WriteFault = 5,
    /// The budget was spent, or a tree is unfinished.
    Unfinished = 6,
    /// Memory ran out.
    NoMemory = 7,
}

impl Status {
    /// The number of the status.
    pub fn code(self) -> u8
        ensures { result ≡ code_of self }
    {
        self as u8
    }
}
