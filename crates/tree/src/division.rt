// How nine entries are divided into two groups.
ghost use Rattle.std.specs.Prelude.{◌≡◌, ◌/◌, ◌^◌, ◌<◌, ◌≤◌, map, length, take};
ghost use Rattle.rules.specs.Division.{parting, divides, group};
ghost use Rattle.space.specs.Boxes.{around, has};
ghost use Rattle.tree.specs.Nodes.{divided};

use crate::boxes::Boxes;
use crate::entries::Entries;
use crate::fixed::{Sets, area_of, common_of};
use crate::node::NodeEntry;

// Whether the place i is in the code.
pub(crate) fn in_code(code: usize, i: usize) -> bool
    requires { i < 64 }
    ensures { result ≡ has (code / 2 ^ i) 0 }
{
    (code >> i) % 2 == 1
}

// What a division is judged by, in this order: the common area of the groups' boxes, the sum of their areas, and the code.
#[derive(Clone, Copy, PartialEq, Eq, PartialOrd, Ord)]
pub(crate) struct Parting {
    pub(crate) common: u64,
    pub(crate) areas: u64,
    pub(crate) code: usize,
}

// Whether the code divides nine entries.
pub(crate) fn is_division(code: usize) -> bool
    ensures { result ≡ divides code }
{
    code % 2 == 0 && (3..=6).contains(&code.count_ones())
}

impl Boxes<'_> {
    // The box around those that the code puts in one group. `second` is the rules' own test of a group; an enum of the two groups would
    // be turned back into it in every clause.
    fn group_box(&self, code: usize, second: bool) -> Sets
        ensures { result ≡ around 10 (group second code self.now.sets.now) }
    {
        let mut around = [0; 10];
        // By place, as below: the place of a box is the digit of the code that says where it goes.
        for (i, b) in self.sets.iter().enumerate() {
            if in_code(code, i) == second {
                space::join(&mut around, b);
            }
        }
        around
    }

    // The parting of that code.
    fn parting_of(&self, code: usize) -> Parting
        ensures { parting self.now.dims (map (take self.now.dims) self.now.sets.now) code ≡ (result.common, result.areas, result.code) }
    {
        let first = self.group_box(code, false);
        let second = self.group_box(code, true);
        let first = &first[..self.dims];
        let second = &second[..self.dims];
        Parting {
            common: common_of(first, second),
            areas: area_of(first) + area_of(second),
            code,
        }
    }

    // The best division of nine entries with these boxes. There is one, so the default is never needed.
    pub(crate) fn best_division(&self) -> usize
        ensures { result ≡ divided self.now.dims (map (take self.now.dims) self.now.sets.now) }
    {
        (0..512)
            .filter(|code| is_division(*code))
            .map(|code| self.parting_of(code))
            .min()
            .map_or(14, |best| best.code)
    }
}

// Those entries that the code puts in one group.
pub(crate) fn group_of(code: usize, second: bool, entries: &[NodeEntry]) -> Entries
    requires { length entries.now ≤ 9 }
    ensures { result ≡ group second code entries.now }
{
    let mut out = Entries::new();
    for (i, e) in entries.iter().enumerate() {
        if in_code(code, i) == second {
            out.push(*e);
        }
    }
    out
}
