//! The exit statuses of the programs.

ghost use Rattle.std.specs.Prelude.{◌≡◌};
ghost use Rattle.ltl_words.specs.Tools.{status_number};

/// The exit status of a program.
#[derive(Clone, Copy, Debug, PartialEq, Eq)]
pub enum Status {
    /// The automaton was printed, every word satisfies the formula, the formula holds on the word, or the formulas are equivalent.
    Done,
    /// A word violates the formula, the formula doesn't hold on the word, or the formulas aren't equivalent.
    Violated,
    /// The command line is wrong.
    Usage,
    /// The input was refused.
    Refused,
    /// The allocator refused an allocation.
    OutOfMemory,
    /// A file wasn't opened, or a read or a write failed.
    Failed,
}

impl Status {
    /// The number of the status, from 0 to 5 in the order above.
    pub fn number(self) -> u8
        ensures { result ≡ status_number self }
    {
        match self {
            Status::Done => 0,
            Status::Violated => 1,
            Status::Usage => 2,
            Status::Refused => 3,
            Status::OutOfMemory => 4,
            Status::Failed => 5,
        }
    }
}
