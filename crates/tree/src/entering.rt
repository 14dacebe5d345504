// How a clip enters the tree.
ghost use Rattle.std.specs.Prelude.{◌≡◌, ℕ, suc, ◌+◌, ◌<◌, ◌≤◌, length, slice_index, slice_index_or};
ghost use Rattle.tree.specs.Leaving.{EachOnce, EnteredClip};
ghost use Rattle.tree.specs.Nodes.{Sound, SoundIn, Lettered, EnteredBelow, EnteredRoot, times, held, inside, node, no_entry, spot, place_in, place_of};

use crate::boxes::Boxes;
use crate::free::FreePlaces;
use crate::node::NodeEntry;
use crate::nodes::{Nodes, Subtree};
use space::StoredClip;

impl Nodes {
    // The place of the node below another that a clip is to go to.
    pub(crate) fn choose_child(&self, at: Subtree, clip: StoredClip) -> usize
        requires clip { Lettered clip }
        requires some { 0 < (node self.now.places.items at.place).len }
        requires sound { SoundIn self.now.places.items at.height at.place }
        ensures place { place_of self.now.dims self.now.places.items at.height at.place clip < length (inside (node self.now.places.items at.place)) }
        ensures child { result ≡ place_in (slice_index_or (inside (node self.now.places.items at.place)) (place_of self.now.dims self.now.places.items at.height at.place clip) no_entry) }
    {
        let entries = self.places[at.place].entries();
        let boxes = self.boxes_of(at.height, entries);
        let boxes = Boxes {
            sets: &boxes[..entries.len()],
            dims: self.dims,
        };
        let place = boxes.choose(clip.letters);
        entries[place].place()
    }

    // Enters a clip below a node, and says how many of the spare places it used.
    pub(crate) fn enter_below(&mut self, spare: &[usize], at: Subtree, clip: StoredClip) -> usize
        requires clip { Lettered clip }
        requires sound { Sound self.old.places.items (suc at.height) (spot at.place) }
        requires room { at.height < length spare.now }
        requires spares { (k : ℕ) → k < length spare.now → slice_index spare.now k < length self.old.places.items }
        requires apart { (k : ℕ) → times self.old.places.items (suc at.height) (spot at.place) k + held spare.now (suc at.height) k ≤ 1 }
        ensures entered { EnteredBelow self.old.dims self.old.places.items self.new.places.items spare.now at.height at.place clip result }
        ensures dims { self.new.dims ≡ self.old.dims }
    {
        let height = at.height;
        if height == 0 {
            if self.add(at, spare[height], NodeEntry::Clip(clip)) {
                return 1;
            }
            return 0;
        }
        let child = Subtree {
            place: self.choose_child(at, clip),
            height: height - 1,
        };
        let used = self.enter_below(spare, child, clip);
        if used < height {
            self.rebox(at);
            return used;
        }
        if self.add(at, spare[height], NodeEntry::Place(spare[height - 1])) {
            return height + 1;
        }
        height
    }

    // Enters a clip in the tree of a root, and says the root after and how many of the spare places it used.
    pub(crate) fn enter_root(
        &mut self,
        spare: &[usize],
        root: Subtree,
        clip: StoredClip,
    ) -> (Subtree, usize)
        requires clip { Lettered clip }
        requires sound { Sound self.old.places.items (suc root.height) (spot root.place) }
        requires room { suc root.height < length spare.now }
        requires spares { (k : ℕ) → k < length spare.now → slice_index spare.now k < length self.old.places.items }
        requires apart { (k : ℕ) → times self.old.places.items (suc root.height) (spot root.place) k + held spare.now (suc (suc root.height)) k ≤ 1 }
        ensures entered { EnteredRoot self.old.dims self.old.places.items self.new.places.items spare.now root.height root.place clip result.0.height result.0.place result.1 }
        ensures dims { self.new.dims ≡ self.old.dims }
    {
        let used = self.enter_below(spare, root, clip);
        if used <= root.height {
            return (root, used);
        }
        let top = Subtree {
            place: spare[root.height + 1],
            height: root.height + 1,
        };
        let both = [
            NodeEntry::Place(root.place),
            NodeEntry::Place(spare[root.height]),
        ];
        self.write(top, &both);
        (top, root.height + 2)
    }

    // Enters a clip in the tree of a root, with places from the stack of the free ones, and says the root after.
    pub(crate) fn enter_clip(
        &mut self,
        free: &mut FreePlaces,
        root: Subtree,
        clip: StoredClip,
    ) -> Subtree
        requires clip { Lettered clip }
        requires sound { Sound self.old.places.items (suc root.height) (spot root.place) }
        requires spread { EachOnce self.old.places.items free.old.places.items free.old.used root.height root.place }
        requires room { free.old.used + root.height + 2 ≤ length free.old.places.items }
        ensures entered { EnteredClip self.old.dims self.old.places.items self.new.places.items free.old.places.items free.old.used root.height root.place clip free.new.used result.height result.place }
        ensures dims { self.new.dims ≡ self.old.dims }
        ensures free { free.new.places.items ≡ free.old.places.items }
    {
        let (after, used) = self.enter_root(&free.places[free.used..], root, clip);
        free.used += used;
        after
    }
}
