// How a clip leaves the tree.
ghost use Rattle.std.specs.Prelude.{◌≡◌, ℕ, suc, ◌<◌, ◌≤◌, true, ◌++◌, length, take, drop, ◌≢◌};
ghost use Rattle.std.specs.List.{AllByRecursion};
ghost use Rattle.tree.specs.Leaving.{RoomFor, Within, SetAside, listed_in, kept, WithdrawnBelow, WithdrawnRoot};
ghost use Rattle.tree.specs.Nodes.{Sound, SoundIn, Written, times, inside, node, spot};

use crate::entries::Entries;
use crate::free::FreePlaces;
use crate::node::NodeEntry;
use crate::nodes::{Nodes, Subtree};
use crate::worklist::Worklist;

// The entries of a leaf but those of that number.
pub(crate) fn other_clips(entries: &[NodeEntry], number: u32) -> Entries
    requires { length entries.now ≤ 8 }
    ensures { result ≡ kept number entries.now }
{
    let mut out = Entries::new();
    for entry in entries {
        if entry.clip().number != number {
            out.push(*entry);
        }
    }
    out
}

impl Nodes {
    // Moves the tree of an entry out: its clips to the worklist, the places of its nodes to the free ones.
    pub(crate) fn set_aside(
        &self,
        height: usize,
        e: NodeEntry,
        worklist: &mut Worklist,
        free: &mut FreePlaces,
    )
        requires within { Within self.now.places.items height e }
        requires room { RoomFor self.now.places.items height e (length worklist.old.words.now) worklist.old.clips free.old.used }
        ensures { SetAside self.now.places.items height e worklist.old.words.now worklist.new.words.now worklist.old.clips worklist.new.clips free.old.places.items free.new.places.items free.old.used free.new.used }
    {
        if height == 0 {
            worklist.lay(e.clip());
            return;
        }
        let at = e.place();
        free.put_back(at);
        for entry in self.places[at].entries() {
            self.set_aside(height - 1, *entry, worklist, free);
        }
    }

    // Makes a leaf anew without the clips of a number.
    pub(crate) fn remove_clip(&mut self, place: usize, number: u32)
        requires { SoundIn self.old.places.items 0 place }
        ensures written { Written self.old.dims self.old.places.items self.new.places.items 0 place (kept number (inside (node self.old.places.items place))) }
        ensures dims { self.new.dims ≡ self.old.dims }
    {
        let stay = other_clips(self.places[place].entries(), number);
        self.write(Subtree { place, height: 0 }, stay.as_slice());
    }

    // Makes a node anew without its entry at p.
    pub(crate) fn remove_entry(&mut self, at: Subtree, p: usize)
        requires place { p < length (inside (node self.old.places.items at.place)) }
        requires sound { AllByRecursion (Sound self.old.places.items at.height) (take p (inside (node self.old.places.items at.place)) ++ drop (suc p) (inside (node self.old.places.items at.place))) }
        requires within { at.place < length self.old.places.items }
        ensures written { Written self.old.dims self.old.places.items self.new.places.items at.height at.place (take p (inside (node self.old.places.items at.place)) ++ drop (suc p) (inside (node self.old.places.items at.place))) }
        ensures dims { self.new.dims ≡ self.old.dims }
    {
        let mut entries = Entries::copied(self.places[at.place].entries());
        entries.remove(p);
        self.write(at, entries.as_slice());
    }

    // Withdraws a number that is listed below a node. A node below that is left with less than three entries is taken out, and its tree set aside.
    pub(crate) fn withdraw_below(
        &mut self,
        at: Subtree,
        number: u32,
        worklist: &mut Worklist,
        free: &mut FreePlaces,
    )
        requires sound { Sound self.old.places.items (suc at.height) (spot at.place) }
        requires listed { listed_in self.old.dims self.old.places.items (suc at.height) number (spot at.place) ≡ true }
        requires apart { (k : ℕ) → times self.old.places.items (suc at.height) (spot at.place) k ≤ 1 }
        requires room { RoomFor self.old.places.items (suc at.height) (spot at.place) (length worklist.old.words.now) worklist.old.clips free.old.used }
        ensures withdrawn { WithdrawnBelow self.old.dims self.old.places.items self.new.places.items at.height at.place number worklist.old.words.now worklist.new.words.now worklist.old.clips worklist.new.clips free.old.places.items free.new.places.items free.old.used free.new.used }
        ensures dims { self.new.dims ≡ self.old.dims }
    {
        if at.height == 0 {
            self.remove_clip(at.place, number);
            return;
        }
        let p = self.holder_of(at, number);
        let child = Subtree {
            place: self.child_of(at.place, p),
            height: at.height - 1,
        };
        self.withdraw_below(child, number, worklist, free);
        if self.places[child.place].len >= 3 {
            self.rebox(at);
            return;
        }
        self.set_aside(at.height, NodeEntry::Place(child.place), worklist, free);
        self.remove_entry(at, p);
    }

    // The same at a root, which gives way where it is left with one entry. Says the root after.
    pub(crate) fn withdraw_root(
        &mut self,
        root: Subtree,
        number: u32,
        worklist: &mut Worklist,
        free: &mut FreePlaces,
    ) -> Subtree
        requires sound { Sound self.old.places.items (suc root.height) (spot root.place) }
        requires two { (root.height ≢ 0) → 2 ≤ length (inside (node self.old.places.items root.place)) }
        requires listed { listed_in self.old.dims self.old.places.items (suc root.height) number (spot root.place) ≡ true }
        requires apart { (k : ℕ) → times self.old.places.items (suc root.height) (spot root.place) k ≤ 1 }
        requires room { RoomFor self.old.places.items (suc root.height) (spot root.place) (length worklist.old.words.now) worklist.old.clips free.old.used }
        ensures withdrawn { WithdrawnRoot self.old.dims self.old.places.items self.new.places.items root.height root.place number worklist.old.words.now worklist.new.words.now worklist.old.clips worklist.new.clips free.old.places.items free.new.places.items free.old.used free.new.used result.height result.place }
        ensures dims { self.new.dims ≡ self.old.dims }
    {
        self.withdraw_below(root, number, worklist, free);
        if root.height == 0 || self.places[root.place].len != 1 {
            return root;
        }
        free.put_back(root.place);
        Subtree {
            place: self.child_of(root.place, 0),
            height: root.height - 1,
        }
    }
}
