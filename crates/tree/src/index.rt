// An index of clips. The type stands alone in its file, since the definitions that speak of it cannot be imported where it is declared.
ghost use Rattle.std.specs.Prelude.{◌≡◌, ◌≤◌, length, take};
ghost use Rattle.tree.specs.Standing.{Whole};

use crate::free::FreePlaces;
use crate::nodes::{Nodes, Subtree};

// A plan, a capacity, and a tree of clips in its table: the boxes, the places not in use, and the root. `clips` counts the clips, and no number is
// above `highest`.
#[derive(Drop)]
pub struct Index {
    pub(crate) sizes: [u8; 10],
    pub(crate) capacity: u32,
    pub(crate) nodes: Nodes,
    pub(crate) free: FreePlaces,
    pub(crate) root: Subtree,
    pub(crate) clips: usize,
    pub(crate) highest: u32,
    ghost long: { length sizes ≡ 10 },
    ghost some: { 1 ≤ nodes.dims },
    ghost whole: { ∥ Whole (take nodes.dims sizes) capacity clips highest nodes.places.items free.places.items free.used root.height root.place ∥₁ },
}
