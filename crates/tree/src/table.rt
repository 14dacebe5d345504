// The memory of a tree. The type stands alone in its file, since the definitions that speak of it cannot be imported where it is declared.
ghost use Rattle.std.specs.Prelude.{◌≡◌, ℕ, ◌<◌, ◌≤◌, vec_len, slice_index};

use crate::node::Node;

// Places for boxes, and a stack of those not in use, here all of them. There are some places more than the boxes that were asked for.
// All memory of an index is taken here, once, so boxes are named by their places.
#[derive(Drop)]
pub struct Table {
    pub(crate) nodes: Vec<Node>,
    pub(crate) free: Vec<usize>,
    ghost room: { 8 ≤ vec_len nodes },
    ghost long: { vec_len free ≡ vec_len nodes },
    ghost each: { (k : ℕ) → k < vec_len nodes → slice_index free.items k ≡ k },
}
