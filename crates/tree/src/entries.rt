// Entries on their way from one box to another.
ghost use Rattle.std.specs.Prelude.{◌≡◌, suc, ◌<◌, ◌≤◌, [], ◌∷◌, ◌++◌, length, take, drop};

use crate::node::NodeEntry;
use crate::padded::padded;
use std::marker::Model;

// Up to nine entries, one more than a box holds: in an array of fixed size, since nothing here takes memory.
#[derive(Drop)]
pub(crate) struct Entries {
    items: [NodeEntry; 9],
    len: usize,
}

impl Model for Entries {
    ghost use Rattle.std.specs.Prelude.{List, ◌≤◌, take};
    ghost use Rattle.tree.specs.declared.node.NodeEntry.{NodeEntry};

    ghost Value = { List NodeEntry };

    ghost view = { λ a. take a.len a.items };

    ghost invariant = { λ a. a.len ≤ 9 };
}

impl Entries {
    // No entries.
    pub(crate) fn new() -> Entries
        ensures { result ≡ [] }
    {
        Entries {
            items: [NodeEntry::Free; 9],
            len: 0,
        }
    }

    // Those entries.
    pub(crate) fn copied(entries: &[NodeEntry]) -> Entries
        requires { length entries.now ≤ 9 }
        ensures { result ≡ entries.now }
    {
        Entries {
            items: padded(entries, NodeEntry::Free),
            len: entries.len(),
        }
    }

    // Puts one more behind the others.
    pub(crate) fn push(&mut self, entry: NodeEntry)
        requires { length self.old < 9 }
        ensures { self.new ≡ self.old ++ entry ∷ [] }
    {
        self.items[self.len] = entry;
        self.len += 1;
    }

    // Takes the one at p out.
    pub(crate) fn remove(&mut self, p: usize)
        requires { p < length self.old }
        ensures { self.new ≡ take p self.old ++ drop (suc p) self.old }
    {
        // It is put behind the others, and cut off.
        self.items[p..self.len].rotate_left(1);
        self.len -= 1;
    }

    // The entries, in their order.
    pub(crate) fn as_slice(&self) -> &[NodeEntry]
        ensures { result.now ≡ self.now }
    {
        &self.items[..self.len]
    }
}
