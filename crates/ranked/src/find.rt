ghost use Rattle.ranked.specs.Find.{ahead};
ghost use Rattle.ranked.specs.Texts.{find_text};
ghost use Rattle.std.specs.Prelude.{Some};
ghost use Rattle.std.proofs.Common.{rules};

use crate::order::Ranked;
use std::fmt;

// A clip that a search found, and how far it lies from what was looked for. The lower distance comes first, then the lower clip number.
#[derive(Clone, Copy, PartialEq, Eq, PartialOrd, Ord, Debug, Default)]
pub struct Find {
    pub distance: u32,
    pub clip: u32,
}

// The order is `ahead` of specs/Find.antt, where it is stated once; finds also compare by it.
impl Ranked for Find {
    ghost before = { ahead };

    ghost order = { Prim.search rules };

    ghost tie = { Prim.search rules };

    fn precedes(&self, other: &Find) -> bool {
        *self < *other
    }
}

impl fmt::Display for Find {
    ghost output = { λ f. Some (find_text f) };

    fn fmt<W: fmt::Write>(&self, f: &mut fmt::Formatter<W>) -> fmt::Result {
        let clip = self.clip;
        let distance = self.distance;
        write!(f, "clip {clip} at {distance}")
    }
}
