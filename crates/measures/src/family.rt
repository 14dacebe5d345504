// The family measure.
ghost use Rattle.std.specs.Prelude.{◌≡◌, ℕ, ◌<◌, ◌≤◌, ◌&&◌};
ghost use Rattle.measures.specs.Families.{family, akin, any_below, strange, strange_set, family_distance, family_floor};
ghost use Rattle.space.specs.Boxes.{has};
ghost use Rattle.measures.specs.Kin.{family_costs};
ghost use Rattle.measures.specs.Rules.{plain_rule};

use crate::cost::{Cost, box_cost, vector_cost};
use crate::measure::Measure;
use space::has as is_in;

// Letters of one family are nearer to one another than to the rest: a dimension costs 0 if alike, 1 if of one family, else 2.
#[derive(Clone, Copy)]
pub struct Family;

// The set of all letters of the letter's family.
fn family_of(letter: u8) -> u64
    requires { letter ≤ 63 }
    ensures { (l : ℕ) → l < 64 → has result l ≡ akin letter l }
{
    match letter {
        0..=9 => 0x3ff,
        10..=15 => 0xfc00,
        16..=31 => 0xffff_0000,
        32..=39 => 0x00ff_0000_0000,
        40..=55 => 0x00ff_ff00_0000_0000,
        _ => 0xff00_0000_0000_0000,
    }
}

// Whether the set has a letter of the letter's family.
fn has_family(set: u64, letter: u8) -> bool
    requires { letter ≤ 63 }
    ensures { result ≡ any_below 64 (λ l. has set l && akin letter l) }
{
    set & family_of(letter) != 0
}

impl Cost for Family {
    ghost letter_costs = { λ _. strange };

    ghost set_costs = { λ _. strange_set };

    ghost rule = { λ m. family_costs };

    fn letter_cost(&self, _dimension: usize, query: u8, letter: u8) -> u32 {
        if query == letter {
            0
        } else if is_in(family_of(query), letter) {
            1
        } else {
            2
        }
    }

    fn set_cost(&self, _dimension: usize, query: u8, set: u64) -> u32 {
        if is_in(set, query) {
            0
        } else if has_family(set, query) {
            1
        } else {
            2
        }
    }
}

impl Measure for Family {
    ghost distances = { λ _. family_distance };

    ghost floors = { λ _. family_floor };

    ghost rule = { λ m. plain_rule strange strange_set family_costs };

    fn distance(&self, query: &[u8], vector: &[u8]) -> Option<u32> {
        vector_cost(self, query, vector)
    }

    fn floor(&self, query: &[u8], sets: &[u64]) -> Option<u32> {
        box_cost(self, query, sets)
    }
}
