// The boxes of a table, and their entries.
ghost use Rattle.std.specs.Prelude.{◌≤◌};

use crate::fixed::Sets;
use crate::padded::padded;
use space::StoredClip;

// An entry of a box: a clip in a leaf, the place of a box above.
#[derive(Clone, Copy)]
pub enum NodeEntry {
    Free,
    Clip(StoredClip),
    Place(usize),
}

impl NodeEntry {
    ghost use Rattle.std.specs.Prelude.{◌≡◌};
    ghost use Rattle.tree.specs.Nodes.{clip_in, place_in};

    // The clip of an entry.
    pub(crate) fn clip(self) -> StoredClip
        ensures { result ≡ clip_in self }
    {
        match self {
            NodeEntry::Clip(c) => c,
            _ => StoredClip::default(),
        }
    }

    // The place of an entry.
    pub(crate) fn place(self) -> usize
        ensures { result ≡ place_in self }
    {
        match self {
            NodeEntry::Place(p) => p,
            _ => 0,
        }
    }
}

// A box of the tree: its sets of letters, and its entries, of which the first `len` are in use. An array with a length beside, since the boxes of a
// table lie in one piece of memory and are copied.
#[derive(Clone, Copy)]
pub struct Node {
    pub(crate) sets: Sets,
    pub(crate) len: usize,
    pub(crate) entries: [NodeEntry; 8],
    ghost few: { len ≤ 8 },
}

impl Node {
    ghost use Rattle.std.specs.Prelude.{◌≡◌, length};
    ghost use Rattle.tree.specs.Nodes.{inside};

    // A box of those sets and entries.
    pub(crate) fn new(sets: Sets, entries: &[NodeEntry]) -> Node
        requires { length entries.now ≤ 8 }
        ensures sets { result.sets ≡ sets }
        ensures long { result.len ≡ length entries.now }
        ensures entries { inside result ≡ entries.now }
    {
        Node {
            sets,
            len: entries.len(),
            entries: padded(entries, NodeEntry::Free),
        }
    }

    // The entries in use.
    pub(crate) fn entries(&self) -> &[NodeEntry]
        ensures entries { result.now ≡ inside self.now }
        ensures long { length result.now ≡ self.now.len }
    {
        &self.entries[..self.len]
    }
}
