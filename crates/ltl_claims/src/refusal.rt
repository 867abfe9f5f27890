//! Refusals: the errors of the program.

ghost use Rattle.std.specs.Prelude.{◌≡◌};
ghost use Rattle.ltl_words.specs.Tools.{status_number};
ghost use Rattle.ltl_claims.specs.Refusals.{of_claim, of_plan, refusal_of, status_of};

use ltl_claim::{ClaimFault, ClaimFaultKind};
use ltl_streams::WriteFault;
use ltl_words::{PlanFault, Status};

/// Why the program prints no automaton. Each refusal has one exit status and one message.
#[derive(Clone, Copy, Debug, PartialEq, Eq)]
pub enum Refusal {
    /// The command line has no meaning.
    Usage,
    /// A file could not be opened.
    CannotOpen,
    /// A read failed.
    CannotRead,
    /// A write or a flush of the output failed.
    CannotWrite,
    /// The allocator refused an allocation.
    OutOfMemory,
    /// The text isn't a claim of the profile: the line and the column of the leftmost fault, in bytes from 1, and what is wrong there.
    BadClaim(usize, usize, ClaimFaultKind),
}

impl Refusal {
    /// The refusal of a command line that has no plan.
    pub(crate) fn of_words(fault: PlanFault) -> Refusal
        ensures { result ≡ of_plan fault }
    {
        match fault {
            PlanFault::Usage => Refusal::Usage,
            PlanFault::OutOfMemory => Refusal::OutOfMemory,
        }
    }

    /// The refusal of a claim that wasn't read.
    pub(crate) fn of_claim(fault: ClaimFault) -> Refusal
        ensures { result ≡ of_claim fault }
    {
        match fault {
            ClaimFault::At(line, column, kind) => Refusal::BadClaim(line, column, kind),
            ClaimFault::CannotRead => Refusal::CannotRead,
            ClaimFault::OutOfMemory => Refusal::OutOfMemory,
        }
    }

    /// The exit status.
    pub fn status(self) -> Status
        ensures { status_number result ≡ status_of (refusal_of self) }
    {
        match self {
            Refusal::Usage => Status::Usage,
            Refusal::OutOfMemory => Status::OutOfMemory,
            Refusal::CannotOpen | Refusal::CannotRead | Refusal::CannotWrite => Status::Failed,
            Refusal::BadClaim(..) => Status::Refused,
        }
    }
}

impl From<WriteFault> for Refusal {
    ghost use Rattle.std.specs.Prelude.{◌≡◌};
    ghost use Rattle.ltl_claims.specs.declared.refusal.Refusal.TheVariants.{CannotWrite};

    ghost from_gives = { λ _ refusal. refusal ≡ CannotWrite };

    fn from(_: WriteFault) -> Refusal {
        Refusal::CannotWrite
    }
}
