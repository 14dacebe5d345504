// Counts made from a library, and what they tell.
ghost use Rattle.std.specs.Prelude.{◌≡◌, ℕ, ◌+◌, ◌*◌, ◌<◌, ◌≤◌, true, map, length};
ghost use Rattle.measures.specs.Counted.{counted, CountIs, Counting, NothingBeyond};
ghost use Rattle.measures.specs.Counts.{Shaped, number_at, one_at, limits};
ghost use Rattle.measures.specs.Gehs.{geh_grade};
ghost use Rattle.space.specs.Boxes.{small};

use crate::count::Count;
use space::{Described, MOST_CLIPS, check_plan, check_vector};

// Nothing is counted yet.
fn no_numbers() -> [[u16; 64]; 10]
    ensures shape { Shaped result }
    ensures numbers { (i l : ℕ) → number_at result i l ≡ 0 }
{
    [[0; 64]; 10]
}

// One clip more: each of its letters is counted in its dimension.
fn count_letters(numbers: &mut [[u16; 64]; 10], letters: &[u8])
    requires few { length letters.now ≤ 10 }
    requires small { small letters.now ≡ true }
    requires shape { Shaped numbers.old }
    requires room { (i l : ℕ) → number_at numbers.old i l ≤ 4096 }
    ensures shape { Shaped numbers.new }
    ensures numbers { (i l : ℕ) → number_at numbers.new i l ≡ number_at numbers.old i l + one_at i l letters.now }
{
    // By index: what is written through a zip of `iter_mut` is not known after it.
    for (i, letter) in letters.iter().enumerate() {
        numbers[i][usize::from(*letter)] += 1;
    }
}

// Whether so many clips of the plan can be counted.
fn is_within_limits(plan: &[u8], clips: usize) -> bool
    ensures { result ≡ limits plan.now clips }
{
    check_plan(plan).is_ok() && (1..=MOST_CLIPS).contains(&clips)
}

// No letter is counted beyond the dimensions of the plan.
pub fn nothing_beyond_stands()
    ensures { NothingBeyond }
{}

impl Count {
    // A count of one dimension and one clip in which every number is 0.
    pub fn fresh() -> Count
        ensures { CountIs 1 1 (λ i l. 0) result }
    {
        Count {
            dimensions: 1,
            total: 1,
            numbers: no_numbers(),
        }
    }

    // The count of a library of 1 to 4,096 clips of one plan, in any form that describes them; none of anything else.
    pub fn of<C: Described>(plan: &[u8], clips: &[C]) -> Option<Count>
        ensures { Counting plan.now (map (C.Described.row (length plan.now)) clips.now) result }
    {
        if !is_within_limits(plan, clips.len()) {
            return None;
        }
        let mut numbers = no_numbers();
        for clip in clips {
            let letters = clip.letters(plan.len());
            check_vector(plan, letters).ok()?;
            count_letters(&mut numbers, letters);
        }
        Some(Count {
            dimensions: plan.len(),
            // By `as`: at most 4,096 fit, and a try_from would have a branch that is never taken.
            total: clips.len() as u32,
            numbers,
        })
    }

    // How many of the clips have the letter in the dimension, counted from 0; 0 where there is no such dimension or letter.
    pub fn number(&self, dimension: usize, letter: u8) -> u32
        ensures { result ≡ counted self.now dimension letter }
    {
        if dimension < 10 && letter < 64 {
            u32::from(self.numbers[dimension][usize::from(letter)])
        } else {
            0
        }
    }

    // The grade of a GEH distance by this count.
    pub fn grade(&self, distance: u32) -> u32
        ensures { result ≡ geh_grade self.now.dimensions self.now.total distance }
    {
        // By `as`: there are at most ten.
        distance / (self.dimensions as u32 * self.total)
    }
}
