// Where a clip stands in the tree.
ghost use Rattle.std.specs.Prelude.{◌≡◌, ◌<◌, length, slice_index_or};
ghost use Rattle.tree.specs.Leaving.{listed_in, first_index};
ghost use Rattle.tree.specs.Nodes.{Sound, SoundIn, inside, node, no_entry, place_in};

use crate::node::NodeEntry;
use crate::nodes::{Nodes, Subtree};

impl Nodes {
    // Whether the number is among the clips of an entry.
    pub(crate) fn is_listed(&self, height: usize, e: NodeEntry, number: u32) -> bool
        requires { Sound self.now.places.items height e }
        ensures { result ≡ listed_in self.now.dims self.now.places.items height number e }
    {
        if height == 0 {
            return e.clip().number == number;
        }
        // The closure states what it asks and gives, since its call leads back to this function.
        let below = height - 1;
        self.places[e.place()].entries().iter().any(
            |entry| -> bool
                requires { Sound self.now.places.items below entry.now }
                ensures { result ≡ listed_in self.entry.now.dims self.entry.now.places.items below number entry.now }
            { self.is_listed(below, *entry, number) },
        )
    }

    // The place of the first entry of a node that has the number below it; past the last where there is none.
    pub(crate) fn holder_of(&self, at: Subtree, number: u32) -> usize
        requires { SoundIn self.now.places.items at.height at.place }
        ensures { result ≡ first_index (listed_in self.now.dims self.now.places.items at.height number) (inside (node self.now.places.items at.place)) }
    {
        let entries = self.places[at.place].entries();
        entries
            .iter()
            .position(|entry| self.is_listed(at.height, *entry, number))
            .unwrap_or(entries.len())
    }

    // The place of the node at p among the entries of another.
    pub(crate) fn child_of(&self, at: usize, p: usize) -> usize
        requires within { at < length self.now.places.items }
        requires place { p < length (inside (node self.now.places.items at)) }
        ensures { result ≡ place_in (slice_index_or (inside (node self.now.places.items at)) p no_entry) }
    {
        self.places[at].entries()[p].place()
    }
}
