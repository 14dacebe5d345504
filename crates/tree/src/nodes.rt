// The boxes of a tree. The type stands alone in its file, since the definitions that speak of it cannot be imported where it is declared.
ghost use Rattle.std.specs.Prelude.{◌≤◌};

use crate::node::Node;

// The boxes of a tree of so many dimensions, each at a place, and not in one another: a table takes its memory once, and an index none.
#[derive(Drop)]
pub struct Nodes {
    pub(crate) dims: usize,
    pub(crate) places: Vec<Node>,
    ghost axes: { dims ≤ 10 },
}

// A box of the tree, with all below it: its place, and how high it stands above the leaves.
#[derive(Clone, Copy)]
pub struct Subtree {
    pub(crate) place: usize,
    pub(crate) height: usize,
}
