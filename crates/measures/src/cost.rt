// Measures that are a sum over the dimensions: what one dimension costs, and the sum, proved once for all of them.
ghost use Rattle.std.specs.Prelude.{◌≡◌, ℕ, ◌<◌, ◌≤◌, length};
ghost use Rattle.measures.specs.Costs.{CostRule, vectors, vector_and_box, vector_costs, box_costs, one_d};
ghost use Rattle.space.specs.Boxes.{small};

use space::is_dimensions;

// What the query's letter costs in a dimension, counted from 0, beside a letter, and beside a set of letters.
pub(crate) trait Cost {
    ghost letter_costs: { Self → ℕ → ℕ → ℕ → ℕ };

    ghost set_costs: { Self → ℕ → ℕ → ℕ → ℕ };

    fn letter_cost(&self, dimension: usize, query: u8, letter: u8) -> u32
        requires { (dimension < 10) × ((query ≤ 63) × (letter ≤ 63)) }
        ensures { result ≡ letter_costs self.now dimension query letter };

    fn set_cost(&self, dimension: usize, query: u8, set: u64) -> u32
        requires { (dimension < 10) × (query ≤ 63) }
        ensures { result ≡ set_costs self.now dimension query set };

    ghost rule: { (c : Self) → CostRule (letter_costs c) (set_costs c) };
}

// Whether both are the number of dimensions of a vector or a box, and the same one.
pub(crate) fn is_one_d(a: usize, b: usize) -> bool
    ensures { result ≡ one_d a b }
{
    is_dimensions(a) && a == b
}

// Whether all letters are up to 63.
pub(crate) fn is_small(letters: &[u8]) -> bool
    ensures { result ≡ small letters.now }
{
    letters.iter().all(|letter| *letter <= 63)
}

// Whether these are two vectors of one d.
pub(crate) fn are_vectors(query: &[u8], vector: &[u8]) -> bool
    ensures { result ≡ vectors query.now vector.now }
{
    is_one_d(query.len(), vector.len()) && is_small(query) && is_small(vector)
}

// Whether these are a vector and a box of one d.
pub(crate) fn are_vector_and_box(query: &[u8], sets: &[u64]) -> bool
    ensures { result ≡ vector_and_box query.now sets.now }
{
    is_one_d(query.len(), sets.len()) && is_small(query)
}

// The cost of a vector beside the query; none of anything but two vectors of one d. By index, here and below: the dimension is what a cost is
// asked by. The two are not one function: a clause cannot tell two bounds of one trait apart that differ in what stands beside the query alone.
pub(crate) fn vector_cost<C: Cost>(cost: &C, query: &[u8], vector: &[u8]) -> Option<u32>
    ensures { result ≡ vector_costs (C.letter_costs cost.now) query.now vector.now }
{
    if !are_vectors(query, vector) {
        return None;
    }
    let mut sum: u32 = 0;
    for (i, letter) in query.iter().enumerate() {
        sum += cost.letter_cost(i, *letter, vector[i]);
    }
    Some(sum)
}

// The cost of a box beside the query; none of anything but a vector and a box of one d.
pub(crate) fn box_cost<C: Cost>(cost: &C, query: &[u8], sets: &[u64]) -> Option<u32>
    ensures { result ≡ box_costs (C.set_costs cost.now) query.now sets.now }
{
    if !are_vector_and_box(query, sets) {
        return None;
    }
    let mut sum: u32 = 0;
    for (i, letter) in query.iter().enumerate() {
        sum += cost.set_cost(i, *letter, sets[i]);
    }
    Some(sum)
}
