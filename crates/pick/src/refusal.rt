// Why a command is not obeyed.
ghost use Rattle.pick.specs.declared.refusal.Refusal.TheVariants as refusal;
ghost use Rattle.pick.specs.declared.refusal.Trouble.TheVariants.{Refused, Memory};
ghost use Rattle.std.specs.Prelude.{◌≡◌};

use space::{ClipFault, PlanFault};
use std::alloc::{AllocError, AllocFailed};
use std::fmt;

#[derive(Clone, Copy)]
pub enum Refusal {
    Plan(PlanFault),
    Clip(ClipFault),
    Count,
    NoPlan,
    Listed,
    Full,
    NoDimension,
}

// A refusal by the rules, or want of memory, which ends the session.
#[derive(Clone, Copy)]
pub enum Trouble {
    Refused(Refusal),
    Memory,
}

impl From<Refusal> for Trouble {
    ghost from_gives = { λ e r. r ≡ Refused e };

    fn from(e: Refusal) -> Trouble {
        Trouble::Refused(e)
    }
}

impl From<ClipFault> for Refusal {
    ghost from_gives = { λ e r. r ≡ refusal.Clip e };

    fn from(e: ClipFault) -> Refusal {
        Refusal::Clip(e)
    }
}

impl From<AllocError> for Trouble {
    ghost from_gives = { λ _ r. r ≡ Memory };

    fn from(_e: AllocError) -> Trouble {
        Trouble::Memory
    }
}

impl<T: Drop> From<AllocFailed<T>> for Trouble {
    ghost from_gives = { λ _ r. r ≡ Memory };

    fn from(_e: AllocFailed<T>) -> Trouble {
        Trouble::Memory
    }
}

// The number of the rule, the dimension where there is one, and the rule in words.
impl fmt::Display for Refusal {
    fn fmt<W: fmt::Write>(&self, f: &mut fmt::Formatter<W>) -> fmt::Result {
        match self {
            Refusal::Plan(PlanFault::Dimensions) => write!(
                f,
                "refused 1: a plan has from 1 to 10 sizes"
            ),
            Refusal::Plan(PlanFault::Size(place)) => write!(
                f,
                "refused 1, dimension {place}: size not from 1 to 64"
            ),
            Refusal::Clip(ClipFault::Number) => write!(f, "refused 7: a clip number is from 1 on"),
            Refusal::Clip(ClipFault::Dimensions) => write!(
                f,
                "refused 8: not as many letters as dimensions"
            ),
            Refusal::Clip(ClipFault::Letter(place)) => write!(
                f,
                "refused 9, dimension {place}: letter not below its size"
            ),
            Refusal::Count => write!(f, "refused 10: from 1 to 64 clips can be asked for"),
            Refusal::NoPlan => write!(f, "refused 20: no plan yet"),
            Refusal::Listed => write!(f, "refused 21: clip listed already"),
            Refusal::Full => write!(f, "refused 23: capacity used up"),
            Refusal::NoDimension => write!(f, "refused: no such dimension"),
        }
    }
}
