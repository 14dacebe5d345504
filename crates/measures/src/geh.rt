// Granularity-enhanced Hamming (GEH).
ghost use Rattle.measures.specs.Counted.{counted};
ghost use Rattle.measures.specs.Gehs.{rare, rare_set, geh_distance, geh_floor, geh_grade};
ghost use Rattle.std.specs.Prelude.{◌≡◌, ◌-◌, ◌*◌, length, ◌==◌, nat_eq};
ghost use Rattle.measures.specs.Unlike.{geh_costs};
ghost use Rattle.measures.specs.Rules.{tested_rule};

use crate::cost::{Cost, box_cost, vector_cost};
use crate::count::Count;
use crate::measure::Measure;
use space::has;

// By a count of d dimensions and N clips: an unlike dimension costs d × N, and a like one N less the number of clips that have the letter
// there, so that among clips with as many unlike dimensions the one that shares the common letters is the nearer.
#[derive(Drop)]
pub struct Geh {
    count: Count,
}

impl Geh {
    pub fn new(count: Count) -> Geh
        ensures { result ≡ record { count = count } }
    {
        Geh { count }
    }

    // The grade of a distance that it told.
    pub fn grade(&self, distance: u32) -> u32
        ensures { result ≡ geh_grade self.now.count.dimensions self.now.count.total distance }
    {
        self.count.grade(distance)
    }

    // Whether the query has as many letters as the count has dimensions.
    fn is_of_d(&self, query: &[u8]) -> bool
        ensures { result ≡ (length query.now == self.now.count.dimensions) }
    {
        query.len() == self.count.dimensions
    }

    // What an unlike dimension costs.
    fn unlike_cost(&self) -> u32
        ensures { result ≡ self.now.count.dimensions * self.now.count.total }
    {
        // By `as`: there are at most ten.
        self.count.dimensions as u32 * self.count.total
    }

    // What the query's own letter costs.
    fn like_cost(&self, dimension: usize, letter: u8) -> u32
        ensures { result ≡ self.now.count.total - counted self.now.count dimension letter }
    {
        self.count.total - self.count.number(dimension, letter)
    }
}

impl Cost for Geh {
    ghost letter_costs = { λ g. rare g.count.dimensions g.count.total (counted g.count) };

    ghost set_costs = { λ g. rare_set g.count.dimensions g.count.total (counted g.count) };

    ghost rule = { λ m. geh_costs m.count.dimensions m.count.total (counted m.count) m.count.most m.count.few m.count.least };

    fn letter_cost(&self, dimension: usize, query: u8, letter: u8) -> u32 {
        if query == letter {
            self.like_cost(dimension, query)
        } else {
            self.unlike_cost()
        }
    }

    fn set_cost(&self, dimension: usize, query: u8, set: u64) -> u32 {
        if has(set, query) {
            self.like_cost(dimension, query)
        } else {
            self.unlike_cost()
        }
    }
}

impl Measure for Geh {
    ghost distances = { λ g. geh_distance g.count.dimensions g.count.total (counted g.count) };

    ghost floors = { λ g. geh_floor g.count.dimensions g.count.total (counted g.count) };

    ghost rule = { λ m.
        let d = m.count.dimensions in
        let N = m.count.total in
        let c = counted m.count in
        tested_rule (rare d N c) (rare_set d N c) (geh_costs d N c m.count.most m.count.few m.count.least) (λ q. nat_eq (length q) d) };

    fn distance(&self, query: &[u8], vector: &[u8]) -> Option<u32> {
        if self.is_of_d(query) {
            vector_cost(self, query, vector)
        } else {
            None
        }
    }

    fn floor(&self, query: &[u8], sets: &[u64]) -> Option<u32> {
        if self.is_of_d(query) {
            box_cost(self, query, sets)
        } else {
            None
        }
    }
}
