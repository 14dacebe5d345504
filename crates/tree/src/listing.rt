// The clips of an index, written to a list of the caller's.
ghost use Rattle.std.specs.Prelude.{◌≡◌, ◌+◌, ◌≤◌, length};
ghost use Rattle.rules.specs.Rows.{rising};
ghost use Rattle.rules.specs.Tree.{boxes_in, rows_in};
ghost use Rattle.tree.specs.Leaving.{clips_in, Within};
ghost use Rattle.tree.specs.Listing.{Copied, Listed};
ghost use Rattle.tree.specs.Seen.{tree_in};

use crate::index::Index;
use crate::node::NodeEntry;
use crate::nodes::Nodes;
use space::StoredClip;

impl Nodes {
    // Copies the clips of the tree of an entry to the front of a list, and says how many they are.
    pub(crate) fn copy_clips(&self, height: usize, e: NodeEntry, out: &mut [StoredClip]) -> usize
        requires within { Within self.now.places.items height e }
        requires room { length (clips_in self.now.places.items height e) ≤ length out.old }
        ensures { Copied self.now.places.items height e out.old out.new result }
    {
        if height == 0 {
            out[0] = e.clip();
            return 1;
        }
        let entries = self.places[e.place()].entries();
        let mut many = 0;
        for entry in entries {
            many += self.copy_clips(height - 1, *entry, &mut out[many..]);
        }
        many
    }
}

impl Index {
    // How many clips it lists at most.
    pub fn capacity(&self) -> u32
        ensures { result ≡ self.now.capacity }
    {
        self.capacity
    }

    // How many clips it lists.
    pub fn len(&self) -> usize
        ensures { result ≡ length (rows_in (tree_in self.now)) }
    {
        self.clips
    }

    // How many boxes its tree has.
    pub fn boxes(&self) -> usize
        ensures { result ≡ boxes_in (tree_in self.now) }
    {
        self.free.used
    }

    // Writes the listed clips to the front of `out`, from the first leaf to the last, and says how many; nothing where there is not room for all.
    pub fn clips(&self, out: &mut [StoredClip]) -> Option<usize>
        ensures { Listed self.now (rows_in (tree_in self.now)) out.old out.new result }
    {
        if out.len() < self.clips {
            return None;
        }
        Some(self.nodes.copy_clips(self.root.height + 1, NodeEntry::Place(self.root.place), out))
    }

    // Writes the listed clips to the front of `out` in rising number, and says how many; nothing where there is not room for all.
    pub fn rising(&self, out: &mut [StoredClip]) -> Option<usize>
        ensures { Listed self.now (rising (rows_in (tree_in self.now))) out.old out.new result }
    {
        let n = self.clips(out)?;
        out[0..n].sort_unstable_by_key(|c| c.number);
        Some(n)
    }
}
