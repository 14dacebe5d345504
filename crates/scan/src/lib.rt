// A search over a plain list of clips, one after the other: the simplest thing that answers by the rules, and what the index is tested
// beside.
#![tactic(auto)]

ghost use Rattle.std.specs.Prelude.{◌≡◌, ◌+◌, ◌^◌, ◌<◌, length, take, drop};
ghost use Rattle.ranked.specs.Find.{ahead};
ghost use Rattle.ranked.specs.Rank.{keep_first};
ghost use Rattle.rules.specs.Finds.{hit};
ghost use Rattle.scan.specs.Distances.{far_by, Hits, Nearest};
ghost use Rattle.space.specs.Row.{rows_of};

use measures::{Measure, up_to};
use ranked::{Find, insert};
use space::Clip;

// Of `found` finds the first stand in the slots, in rank. A clip that has a distance is one find more, and goes in at its rank; the answer
// is how many finds there are then.
fn put_find(distance: Option<u32>, clip: u32, slots: &mut [Find], found: usize) -> usize
    requires { found + 1 < 2 ^ 64 }
    ensures count { result ≡ found + length (hit distance clip) }
    ensures front { take result slots.new ≡ keep_first ahead (length slots.old) (take found slots.old) (hit distance clip) }
    ensures back { drop result slots.new ≡ drop result slots.old }
{
    match distance {
        Some(distance) => {
            let _ = insert(slots, found, Find { distance, clip });
            found + 1
        }
        None => found,
    }
}

// The first clips that have a distance, by distance, then the lower number, go into the first slots, as many as there are slots; the
// answer is how many these are. The other slots keep what they had.
pub fn nearest<M: Measure>(measure: &M, query: &[u8], clips: &[Clip], slots: &mut [Find]) -> usize
    ensures { Nearest (far_by (M.distances measure.now) query.now) (rows_of clips.now) slots.old slots.new result }
{
    let mut found = 0;
    for clip in clips {
        let distance = measure.distance(query, &clip.letters);
        found = put_find(distance, clip.number, slots, found);
    }
    found.min(slots.len())
}

// The clips at most the radius away, by distance, then the lower number, go into the first slots, as far as there are slots; the answer
// is how many there are in all. The other slots keep what they had.
pub fn within<M: Measure>(
    measure: &M,
    query: &[u8],
    radius: u32,
    clips: &[Clip],
    slots: &mut [Find],
) -> usize
    ensures { Hits (far_by (M.distances measure.now) query.now) radius (rows_of clips.now) slots.old slots.new result }
{
    let mut found = 0;
    for clip in clips {
        let distance = up_to(radius, measure.distance(query, &clip.letters));
        found = put_find(distance, clip.number, slots, found);
    }
    found
}

#[cfg(test)]
mod tests;
