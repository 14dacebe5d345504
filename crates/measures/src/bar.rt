// The bar, a layer over any measure.
ghost use Rattle.measures.specs.Layers.{WithoutHas, barred, spared, without, gap, bar_distance, bar_floor};
ghost use Rattle.std.specs.Prelude.{◌≡◌, ◌≤◌, length};
ghost use Rattle.measures.specs.Layered.{bar_rule};

use crate::cost::{are_vector_and_box, are_vectors};
use crate::measure::Measure;
use space::has;

// Ten sets of barred letters, one for each dimension. A vector with a barred letter has no distance. A box first loses its barred
// letters, and has no floor only where a set has no letter left: one barred letter says nothing of the others.
#[derive(Drop)]
pub struct Bar<M> {
    bars: [u64; 10],
    below: M,
}

impl<M> Bar<M> {
    pub fn new(bars: [u64; 10], below: M) -> Bar<M>
        ensures { result ≡ record { bars = bars; below = below } }
    {
        Bar { bars, below }
    }
}

// A box that loses its barred letters keeps just its other letters.
pub fn bar_spares_stands()
    ensures { WithoutHas }
{}

// Whether the vector has a barred letter.
fn has_barred(bars: &[u64; 10], vector: &[u8]) -> bool
    requires { length vector.now ≤ 10 }
    ensures { result ≡ barred bars.now vector.now }
{
    let mut pairs = vector.iter().zip(bars);
    pairs.any(|(letter, barred)| has(*barred, *letter))
}

// The letters of the set that are not barred.
fn without(set: u64, barred: u64) -> u64
    ensures { result ≡ without set barred }
{
    set & !barred
}

// Writes the box without its barred letters over `left`. By index: what is written through a zip of `iter_mut` is not known after it.
fn spare(bars: &[u64; 10], sets: &[u64], left: &mut [u64])
    requires { (length sets.now ≤ 10) × (length left.old ≡ length sets.now) }
    ensures { left.new ≡ spared bars.now sets.now }
{
    for (i, set) in sets.iter().enumerate() {
        left[i] = without(*set, bars[i]);
    }
}

// Whether a set has no letter.
fn has_gap(sets: &[u64]) -> bool
    ensures { result ≡ gap sets.now }
{
    sets.contains(&0)
}

impl<M: Measure> Measure for Bar<M> {
    ghost distances = { λ m. bar_distance m.bars (M.distances m.below) };

    ghost floors = { λ m. bar_floor m.bars (M.floors m.below) };

    ghost rule = { λ m. bar_rule (M.distances m.below) (M.floors m.below) (M.rule m.below) m.bars };

    fn distance(&self, query: &[u8], vector: &[u8]) -> Option<u32> {
        if !are_vectors(query, vector) || has_barred(&self.bars, vector) {
            return None;
        }
        self.below.distance(query, vector)
    }

    fn floor(&self, query: &[u8], sets: &[u64]) -> Option<u32> {
        if !are_vector_and_box(query, sets) {
            return None;
        }
        let mut room = [0u64; 10];
        let left = &mut room[..sets.len()];
        spare(&self.bars, sets, left);
        if has_gap(left) {
            return None;
        }
        self.below.floor(query, left)
    }
}
