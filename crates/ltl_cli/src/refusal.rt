//! Refusals: the errors of the programs.

ghost use Rattle.std.specs.Prelude.{◌≡◌};
ghost use Rattle.ltl_spec.specs.Tools.Refusal.{status_of};
ghost use Rattle.ltl_cli.specs.Refusals.{of_plan, refusal_of};
ghost use Rattle.ltl_words.specs.Tools.{status_number};

use ltl_buchi::BaFault;
use ltl_check::CheckFault;
use ltl_formula::BuildFault;
use ltl_hoa::{HoaFault, HoaFaultKind};
use ltl_streams::WriteFault;
use ltl_syntax::{FaultKind, ReadFault};
use ltl_word::WordFault;
use ltl_words::{PlanFault, Status};
use std::alloc::AllocError;
use thiserror::Error;

/// Why a program prints no result. Each refusal has one exit status and one message: the program's name and the text given here. The message of `Usage` goes
/// on with the program's synopsis.
#[derive(Clone, Copy, Debug, PartialEq, Eq, Error)]
pub enum Refusal {
    /// The command line has no meaning.
    #[error("usage")]
    Usage,
    /// A file could not be opened.
    #[error("cannot open")]
    CannotOpen,
    /// A read failed.
    #[error("cannot read")]
    CannotRead,
    /// A write or a flush of the output failed.
    #[error("cannot write")]
    CannotWrite,
    /// The allocator refused an allocation.
    #[error("out of memory")]
    OutOfMemory,
    /// The formula's text is longer than 65,536 bytes.
    #[error("{}", ReadFault::TooLong)]
    LongFormula,
    /// Syntax error in the formula: the offset of the wrong token, in bytes from 0, and what is wrong. The text before the token begins some formula; with
    /// the token it begins none.
    #[error("{}", ReadFault::AtByte(*.0, *.1))]
    BadFormula(usize, FaultKind),
    /// The formula, or the formula and the other input together, have more than 256 propositions.
    #[error("{}", ReadFault::TooManyPropositions)]
    TooManyPropositions,
    /// The formula has more than 4,096 rows.
    #[error("{}", BuildFault::TooManyRows)]
    TooManyRows,
    /// The formula has more than 256 elementary rows.
    #[error("{}", BuildFault::TooManyElementaryRows)]
    TooManyElementaryRows,
    /// The formula's automaton, or one from which it is made, has more than 65,536 states or 1,048,576 edges.
    #[error("limit: automaton too large")]
    LargeAutomaton,
    /// The word's text is longer than 65,536 bytes.
    #[error("{}", WordFault::TooLong)]
    LongWord,
    /// Syntax error in the word: the offset of the wrong byte, from 0. The text before the byte begins some word; with the byte it begins none.
    #[error("{}", WordFault::BadWord(*.0))]
    BadWord(usize),
    /// The text isn't an automaton: the line of the error, from 1, and what is wrong there.
    #[error("{}", HoaFault::AtLine(*.0, *.1))]
    BadAutomaton(usize, HoaFaultKind),
    /// The product that would be searched for a word has too many states.
    #[error("{}", CheckFault::ProductTooLarge)]
    LargeProduct,
}

impl Refusal {
    /// The refusal of a command line that has no plan.
    pub fn of_words(fault: PlanFault) -> Refusal
        ensures { result ≡ of_plan fault }
    {
        match fault {
            PlanFault::Usage => Refusal::Usage,
            PlanFault::OutOfMemory => Refusal::OutOfMemory,
        }
    }

    /// The exit status.
    pub fn status(self) -> Status
        ensures { status_number result ≡ status_of (refusal_of self) }
    {
        match self {
            Refusal::Usage => Status::Usage,
            Refusal::OutOfMemory => Status::OutOfMemory,
            Refusal::CannotOpen | Refusal::CannotRead | Refusal::CannotWrite => Status::Failed,
            _ => Status::Refused,
        }
    }
}

impl From<ReadFault> for Refusal {
    ghost use Rattle.std.specs.Prelude.{◌≡◌};
    ghost use Rattle.ltl_cli.specs.Refusals.{of_read};

    ghost from_gives = { λ fault refusal. refusal ≡ of_read fault };

    fn from(fault: ReadFault) -> Refusal {
        match fault {
            ReadFault::TooLong => Refusal::LongFormula,
            ReadFault::AtByte(place, kind) => Refusal::BadFormula(place, kind),
            ReadFault::TooManyPropositions => Refusal::TooManyPropositions,
            ReadFault::OutOfMemory => Refusal::OutOfMemory,
        }
    }
}

impl From<BuildFault> for Refusal {
    ghost use Rattle.std.specs.Prelude.{◌≡◌};
    ghost use Rattle.ltl_cli.specs.Refusals.{of_build};

    ghost from_gives = { λ fault refusal. refusal ≡ of_build fault };

    fn from(fault: BuildFault) -> Refusal {
        match fault {
            BuildFault::TooManyRows => Refusal::TooManyRows,
            BuildFault::TooManyElementaryRows => Refusal::TooManyElementaryRows,
            BuildFault::OutOfMemory => Refusal::OutOfMemory,
        }
    }
}

impl From<BaFault> for Refusal {
    ghost use Rattle.std.specs.Prelude.{◌≡◌};
    ghost use Rattle.ltl_cli.specs.Refusals.{of_translation};

    ghost from_gives = { λ fault refusal. refusal ≡ of_translation fault };

    fn from(fault: BaFault) -> Refusal {
        match fault {
            BaFault::TooLarge => Refusal::LargeAutomaton,
            BaFault::OutOfMemory => Refusal::OutOfMemory,
        }
    }
}

impl From<WordFault> for Refusal {
    ghost use Rattle.std.specs.Prelude.{◌≡◌};
    ghost use Rattle.ltl_cli.specs.Refusals.{of_word};

    ghost from_gives = { λ fault refusal. refusal ≡ of_word fault };

    fn from(fault: WordFault) -> Refusal {
        match fault {
            WordFault::TooLong => Refusal::LongWord,
            WordFault::BadWord(place) => Refusal::BadWord(place),
            WordFault::TooManyPropositions => Refusal::TooManyPropositions,
            WordFault::OutOfMemory => Refusal::OutOfMemory,
        }
    }
}

impl From<HoaFault> for Refusal {
    ghost use Rattle.std.specs.Prelude.{◌≡◌};
    ghost use Rattle.ltl_cli.specs.Refusals.{of_hoa};

    ghost from_gives = { λ fault refusal. refusal ≡ of_hoa fault };

    fn from(fault: HoaFault) -> Refusal {
        match fault {
            HoaFault::AtLine(line, kind) => Refusal::BadAutomaton(line, kind),
            HoaFault::CannotRead => Refusal::CannotRead,
            HoaFault::OutOfMemory => Refusal::OutOfMemory,
        }
    }
}

impl From<AllocError> for Refusal {
    ghost use Rattle.std.specs.Prelude.{◌≡◌};
    ghost use Rattle.ltl_cli.specs.declared.refusal.Refusal.TheVariants.{OutOfMemory};

    ghost from_gives = { λ _ refusal. refusal ≡ OutOfMemory };

    fn from(_: AllocError) -> Refusal {
        Refusal::OutOfMemory
    }
}

impl From<CheckFault> for Refusal {
    ghost use Rattle.std.specs.Prelude.{◌≡◌};
    ghost use Rattle.ltl_cli.specs.Refusals.{of_check};

    ghost from_gives = { λ fault refusal. refusal ≡ of_check fault };

    fn from(fault: CheckFault) -> Refusal {
        match fault {
            CheckFault::TooManyPropositions => Refusal::TooManyPropositions,
            CheckFault::ProductTooLarge => Refusal::LargeProduct,
            CheckFault::OutOfMemory => Refusal::OutOfMemory,
        }
    }
}

impl From<WriteFault> for Refusal {
    ghost use Rattle.std.specs.Prelude.{◌≡◌};
    ghost use Rattle.ltl_cli.specs.declared.refusal.Refusal.TheVariants.{CannotWrite};

    ghost from_gives = { λ _ refusal. refusal ≡ CannotWrite };

    fn from(_: WriteFault) -> Refusal {
        Refusal::CannotWrite
    }
}
