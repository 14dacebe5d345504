// The Hamming measure.
ghost use Rattle.measures.specs.Hammings.{unlike, lacks, hamming_distance, hamming_floor};
ghost use Rattle.measures.specs.Unlike.{hamming_costs};
ghost use Rattle.measures.specs.Rules.{plain_rule};

use crate::cost::{Cost, box_cost, vector_cost};
use crate::measure::Measure;
use space::has;

// How many dimensions are unlike: of a vector, those with another letter than the query's; of a box, those whose set lacks it.
#[derive(Clone, Copy)]
pub struct Hamming;

impl Cost for Hamming {
    ghost letter_costs = { λ _. unlike };

    ghost set_costs = { λ _. lacks };

    ghost rule = { λ m. hamming_costs };

    fn letter_cost(&self, _dimension: usize, query: u8, letter: u8) -> u32 {
        u32::from(query != letter)
    }

    fn set_cost(&self, _dimension: usize, query: u8, set: u64) -> u32 {
        u32::from(!has(set, query))
    }
}

impl Measure for Hamming {
    ghost distances = { λ _. hamming_distance };

    ghost floors = { λ _. hamming_floor };

    ghost rule = { λ m. plain_rule unlike lacks hamming_costs };

    fn distance(&self, query: &[u8], vector: &[u8]) -> Option<u32> {
        vector_cost(self, query, vector)
    }

    fn floor(&self, query: &[u8], sets: &[u64]) -> Option<u32> {
        box_cost(self, query, sets)
    }
}
