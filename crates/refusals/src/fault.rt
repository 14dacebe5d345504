// What a start is not fit for, and what stands against a call in a catalogue's state.
ghost use Rattle.refusals.specs.Faults.{fit_number, fit_place, state_number};
ghost use Rattle.refusals.specs.declared.fault.FitFault.TheVariants.{Plan};
ghost use Rattle.std.specs.Prelude.{◌≡◌};

use space::PlanFault;

// A start is not fit: its plan, its capacity, or a table that is too short.
#[derive(Clone, Copy, PartialEq, Eq, Debug)]
pub enum FitFault {
    Plan(PlanFault),
    Capacity,
    Table,
}

// The state does not allow a call: the catalogue is void, the clip is listed already or is not listed, the capacity is used up, the worklist is
// too short, the catalogue is not empty, nothing is listed, or the output is too short. Each counts as its number does.
#[derive(Clone, Copy, PartialEq, Eq, Debug)]
pub enum StateFault {
    Void = 20,
    Listed = 21,
    Missing = 22,
    Full = 23,
    Worklist = 24,
    Filled = 25,
    Empty = 26,
    Output = 27,
}

impl From<PlanFault> for FitFault {
    ghost from_gives = { λ e r. r ≡ Plan e };

    fn from(e: PlanFault) -> FitFault {
        FitFault::Plan(e)
    }
}

impl FitFault {
    // The number of the refusal.
    pub fn number(self) -> u32
        ensures { result ≡ fit_number self }
    {
        match self {
            FitFault::Plan(fault) => fault.number(),
            FitFault::Capacity => 2,
            FitFault::Table => 3,
        }
    }

    // The dimension of the first size at fault, from 1; else 0, by which the rules tell none.
    pub fn place(self) -> usize
        ensures { result ≡ fit_place self }
    {
        match self {
            FitFault::Plan(fault) => fault.place(),
            FitFault::Capacity | FitFault::Table => 0,
        }
    }
}

impl StateFault {
    // The number of the refusal.
    pub fn number(self) -> u32
        ensures { result ≡ state_number self }
    {
        self as u32
    }
}
