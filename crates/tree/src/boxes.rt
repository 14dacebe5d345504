// Boxes side by side: what the choice of an entry and the division of nine look at.
ghost use Rattle.std.specs.Prelude.{◌≤◌, length};

use crate::fixed::Sets;

// The boxes of entries of one height, up to nine of them, and how many sets of each count.
#[derive(Clone, Copy)]
pub(crate) struct Boxes<'a> {
    pub(crate) sets: &'a [Sets],
    pub(crate) dims: usize,
    ghost axes: { dims ≤ 10 },
    ghost few: { length sets.now ≤ 9 },
}
