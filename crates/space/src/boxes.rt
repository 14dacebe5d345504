// Sets of letters as masks, and boxes as slices of sets, one for each dimension.
ghost use Rattle.std.specs.Prelude.{◌≡◌, ◌^◌, ◌≤◌, true, length, is_some, IfSome};
ghost use Rattle.space.specs.Boxes.{has, in_box, area, meet, join, point, only, small, dimensions, given, area_of, common_of, filled};
ghost use Rattle.space.specs.LawsBoxes.{BothLetters};
ghost use Rattle.space.specs.Rewritten.{Rewritten};

const LETTERS: u8 = 64;

// The most dimensions that a vector, a box or a plan has.
pub const DIMENSIONS: usize = 10;

// The most clips that are listed, or counted, together.
pub const MOST_CLIPS: usize = 4096;

// Whether the letter is in the set. A byte above 63 is no letter, and in no set.
pub fn has(set: u64, letter: u8) -> bool
    ensures { result ≡ has set letter }
{
    letter < LETTERS && (set >> letter) & 1 == 1
}

// Whether the vector is in the box: as many letters as sets, each letter in its set.
pub fn contains(sets: &[u64], vector: &[u8]) -> bool
    ensures { result ≡ in_box vector.now sets.now }
{
    vector.len() == sets.len()
        && vector
            .iter()
            .zip(sets)
            .all(|(letter, set)| has(*set, *letter))
}

// Writes each set anew, of what it was and of what stands there in the other list, as far as both go.
// By index: what is written through a zip of `iter_mut` is not known after it. The one demand is of the function, which could not be called
// without it; the lists may be any.
pub fn rewrite<T: Copy, F: Fn(u64, T) -> u64>(sets: &mut [u64], other: &[T], f: F)
    requires { F.IsAlwaysCallable f }
    ensures { Rewritten (F.post f) sets.old other.now sets.new }
{
    for i in 0..sets.len().min(other.len()) {
        sets[i] = f(sets[i], other[i]);
    }
}

// Adds the letters of the other box, dimension by dimension.
pub fn join(sets: &mut [u64], other: &[u64])
    ensures value { sets.new ≡ join sets.old other.now }
    ensures letters { BothLetters sets.old other.now sets.new }
{
    rewrite(sets, other, |set, more| set | more);
}

// The set of one letter. A byte above 63 is no letter, and its set is empty.
pub fn set_of(letter: u8) -> u64
    ensures { result ≡ only letter }
{
    if letter < LETTERS { 1 << letter } else { 0 }
}

// Writes the box of one vector into the first sets, as far as they go, and leaves the others.
pub fn point(sets: &mut [u64], vector: &[u8])
    ensures value { sets.new ≡ filled (point vector.now) sets.old }
    ensures around { length sets.old ≡ length vector.now → small vector.now ≡ true → in_box vector.now sets.new ≡ true }
{
    rewrite(sets, vector, |_, letter| set_of(letter));
}

// Whether a vector, a box or a plan can have so many dimensions.
pub fn is_dimensions(d: usize) -> bool
    ensures { result ≡ dimensions d }
{
    (1..=DIMENSIONS).contains(&d)
}

// The product of the numbers of letters in the sets of a box; none of anything but 1 to 10 sets.
pub fn area(sets: &[u64]) -> Option<u64>
    ensures value { result ≡ area_of sets.now }
    ensures most { IfSome result (λ x. x ≤ 64 ^ length sets.now) }
{
    if !is_dimensions(sets.len()) {
        return None;
    }
    let mut product: u64 = 1;
    for set in sets {
        product *= u64::from(set.count_ones());
    }
    Some(product)
}

// The area of the box of the common letters of two boxes; none of anything but two boxes of one d.
pub fn common_area(a: &[u64], b: &[u64]) -> Option<u64>
    ensures value { result ≡ common_of a.now b.now }
    ensures area { result ≡ given (is_some result) (area (meet a.now b.now)) }
    ensures most { IfSome result (λ x. x ≤ 64 ^ length a.now) }
{
    if !is_dimensions(a.len()) || a.len() != b.len() {
        return None;
    }
    let mut product: u64 = 1;
    for (set, other) in a.iter().zip(b) {
        let letters = (*set & *other).count_ones();
        // One dimension without a common letter: the others do not matter.
        if letters == 0 {
            return Some(0);
        }
        product *= u64::from(letters);
    }
    Some(product)
}
