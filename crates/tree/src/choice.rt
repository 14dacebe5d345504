// Which entry of an inner box a new clip goes to.
ghost use Rattle.std.specs.Prelude.{◌≡◌, ◌<◌, map, length, take};
ghost use Rattle.rules.specs.Choice.{commons, growth, chosen};

use crate::boxes::Boxes;
use crate::fixed::{Sets, area_of, common_of, point_of, union_of};

// What the choice looks at, in this order: how much the common areas of a box with the others grow, how much its area grows, its area
// before, and its place.
#[derive(Clone, Copy, PartialEq, Eq, PartialOrd, Ord)]
pub(crate) struct Growth {
    pub(crate) common: u64,
    pub(crate) area: u64,
    pub(crate) before: u64,
    pub(crate) place: usize,
}

impl Boxes<'_> {
    // The sum of a box's common areas with these.
    fn common_sum(&self, b: Sets) -> u64
        ensures { result ≡ commons (take self.now.dims b) (map (take self.now.dims) self.now.sets.now) }
    {
        self.sets
            .iter()
            .map(|c| common_of(&b[..self.dims], &c[..self.dims]))
            .sum()
    }

    // The growth of the box at that place among the others, when the vector joins it.
    fn growth_of(&self, letters: [u8; 10], place: usize) -> Growth
        requires within { place < length self.now.sets.now }
        ensures score { growth (map (take self.now.dims) self.now.sets.now) (take self.now.dims letters) place ≡ (result.common, result.area, result.before) }
        ensures place { result.place ≡ place }
    {
        let dims = self.dims;
        let b = self.sets[place];
        let g = union_of(b, point_of(letters));
        let more = self
            .common_sum(g)
            .saturating_sub(common_of(&g[..dims], &b[..dims]));
        let kept = self
            .common_sum(b)
            .saturating_sub(common_of(&b[..dims], &b[..dims]));
        let before = area_of(&b[..dims]);
        Growth {
            common: more.saturating_sub(kept),
            area: area_of(&g[..dims]).saturating_sub(before),
            before,
            place,
        }
    }

    // The place of the box that a vector is to go to. There is a box, so the default is never needed.
    pub(crate) fn choose(&self, letters: [u8; 10]) -> usize
        requires { 0 < length self.now.sets.now }
        ensures place { result ≡ chosen (map (take self.now.dims) self.now.sets.now) (take self.now.dims letters) }
        ensures within { result < length self.now.sets.now }
    {
        (0..self.sets.len())
            .map(|place| self.growth_of(letters, place))
            .min()
            .map_or(0, |least| least.place)
    }
}
