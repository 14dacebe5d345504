// The cut-off, a layer over any measure.
ghost use Rattle.measures.specs.Layers.{up_to, cut_distance, cut_floor};
ghost use Rattle.std.specs.Prelude.{◌≡◌};
ghost use Rattle.measures.specs.Layered.{cut_rule};

use crate::cost::{are_vector_and_box, are_vectors};
use crate::measure::Measure;

// Distances and floors above the limit become none.
#[derive(Drop)]
pub struct CutOff<M> {
    limit: u32,
    below: M,
}

impl<M> CutOff<M> {
    pub fn new(limit: u32, below: M) -> CutOff<M>
        ensures { result ≡ record { limit = limit; below = below } }
    {
        CutOff { limit, below }
    }
}

// A distance or a floor above the limit becomes none.
pub fn up_to(limit: u32, answer: Option<u32>) -> Option<u32>
    ensures { result ≡ up_to limit answer }
{
    answer.filter(|x| *x <= limit)
}

impl<M: Measure> Measure for CutOff<M> {
    ghost distances = { λ m. cut_distance m.limit (M.distances m.below) };

    ghost floors = { λ m. cut_floor m.limit (M.floors m.below) };

    ghost rule = { λ m. cut_rule (M.distances m.below) (M.floors m.below) (M.rule m.below) m.limit };

    fn distance(&self, query: &[u8], vector: &[u8]) -> Option<u32> {
        if are_vectors(query, vector) {
            up_to(self.limit, self.below.distance(query, vector))
        } else {
            None
        }
    }

    fn floor(&self, query: &[u8], sets: &[u64]) -> Option<u32> {
        if are_vector_and_box(query, sets) {
            up_to(self.limit, self.below.floor(query, sets))
        } else {
            None
        }
    }
}
