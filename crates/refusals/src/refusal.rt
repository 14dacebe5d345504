// A refusal: what is at fault, in one of the layers.
ghost use Rattle.refusals.specs.Refused.{numbered, layer_number};
ghost use Rattle.refusals.specs.declared.fault.FitFault.TheVariants.{Plan};
ghost use Rattle.refusals.specs.declared.refusal.Refusal.TheVariants as refusal;
ghost use Rattle.rules.specs.Refusals.{layer_of};
ghost use Rattle.std.specs.Prelude.{◌≡◌};

use crate::fault::{FitFault, StateFault};
use file::FileFault;
use space::{ClipFault, PlanFault};
use std::fmt;

// Each holds the fault below it whole: a file's fault its row's, and that one its clip's.
#[derive(Clone, Copy, PartialEq, Eq, Debug)]
pub enum Refusal {
    Fit(FitFault),
    File(FileFault),
    Clip(ClipFault),
    State(StateFault),
}

// Where a refusal comes from, by its number.
#[derive(Clone, Copy, PartialEq, Eq, Debug)]
pub enum Layer {
    Plan = 1,
    File,
    Clip,
    Search,
    Catalogue,
}

impl From<FitFault> for Refusal {
    ghost from_gives = { λ e r. r ≡ refusal.Fit e };

    fn from(e: FitFault) -> Refusal {
        Refusal::Fit(e)
    }
}

impl From<PlanFault> for Refusal {
    ghost from_gives = { λ e r. r ≡ refusal.Fit (Plan e) };

    fn from(e: PlanFault) -> Refusal {
        Refusal::Fit(FitFault::Plan(e))
    }
}

impl From<FileFault> for Refusal {
    ghost from_gives = { λ e r. r ≡ refusal.File e };

    fn from(e: FileFault) -> Refusal {
        Refusal::File(e)
    }
}

impl From<ClipFault> for Refusal {
    ghost from_gives = { λ e r. r ≡ refusal.Clip e };

    fn from(e: ClipFault) -> Refusal {
        Refusal::Clip(e)
    }
}

impl From<StateFault> for Refusal {
    ghost from_gives = { λ e r. r ≡ refusal.State e };

    fn from(e: StateFault) -> Refusal {
        Refusal::State(e)
    }
}

impl Refusal {
    // Its number, by which the rules tell it.
    pub fn number(self) -> u32
        ensures { result ≡ (numbered self).number }
    {
        match self {
            Refusal::Fit(fault) => fault.number(),
            Refusal::File(fault) => fault.number(),
            Refusal::Clip(fault) => fault.number(),
            Refusal::State(fault) => fault.number(),
        }
    }

    // The layer of its number.
    pub fn layer(self) -> Layer
        ensures { layer_number result ≡ layer_of (numbered self).number }
    {
        match self {
            Refusal::Fit(_) => Layer::Plan,
            Refusal::File(FileFault::Row(_)) | Refusal::Clip(_) => Layer::Clip,
            Refusal::File(_) => Layer::File,
            Refusal::State(_) => Layer::Catalogue,
        }
    }

    // The first dimension at fault, from 1, or 0, by which the rules tell none.
    pub fn place(self) -> usize
        ensures { result ≡ (numbered self).place }
    {
        match self {
            Refusal::Fit(fault) => fault.place(),
            Refusal::File(fault) => fault.place(),
            Refusal::Clip(fault) => fault.place(),
            Refusal::State(_) => 0,
        }
    }

    // The row of a file at fault, from 1, or 0, by which the rules tell none.
    pub fn row(self) -> usize
        ensures { result ≡ (numbered self).row }
    {
        match self {
            Refusal::File(fault) => fault.row(),
            Refusal::Fit(_) | Refusal::Clip(_) | Refusal::State(_) => 0,
        }
    }
}

impl Layer {
    // The layers count from 1: plan, file, clip, search, catalogue.
    pub fn number(self) -> u32
        ensures { result ≡ layer_number self }
    {
        self as u32
    }
}

impl fmt::Display for Refusal {
    fn fmt<W: fmt::Write>(&self, f: &mut fmt::Formatter<W>) -> fmt::Result {
        let number = self.number();
        let place = self.place();
        let row = self.row();
        write!(f, "refused {number}")?;
        if row > 0 {
            write!(f, ", row {row}")?;
        }
        if place > 0 {
            write!(f, ", dimension {place}")?;
        }
        Ok(())
    }
}
