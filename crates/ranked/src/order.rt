ghost use Rattle.ranked.specs.Rank.{Order, Tie};
ghost use Rattle.std.specs.Ordering.{is_lt};
ghost use Rattle.std.specs.declared.cmp.Ordering.TheVariants.{Equal};
ghost use Rattle.std.specs.Prelude.{◌≡◌, Bool, nat_lt};
ghost use Rattle.std.proofs.Common.{rules};

use crate::find::Find;

// A kind of entries of which any two have an order, and two that tie are one value. No more is asked: how a type compares otherwise may differ.
pub trait Ranked: Copy {
    // Whether the first stands strictly before the second.
    ghost before: { Self → Self → Bool };

    fn precedes(&self, other: &Self) -> bool
        ensures { result ≡ before self.now other.now };

    ghost order: { Order before };

    ghost tie: { Tie before };
}

// Numbers rank by size.
impl Ranked for u64 {
    ghost before = { nat_lt };

    ghost order = { Prim.search rules };

    ghost tie = { Prim.search rules };

    fn precedes(&self, other: &u64) -> bool {
        *self < *other
    }
}

// A kind of entries that rank as they compare: what is less stands strictly before, and two that compare as equal are one value.
pub trait Ordered: Ranked + Ord {
    ghost by_cmp: { (a b : Self) → is_lt (Self.cmp a b) ≡ Self.before a b };

    ghost tie: { (a b : Self) → Self.cmp a b ≡ Equal → a ≡ b };
}

impl Ordered for u64 {
    ghost by_cmp = { Prim.search rules };

    ghost tie = { Prim.search rules };
}

impl Ordered for Find {
    ghost by_cmp = { Prim.search rules };

    ghost tie = { Prim.search rules };
}
