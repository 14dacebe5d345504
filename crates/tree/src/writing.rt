// Boxes of the table made of their entries.
ghost use Rattle.std.specs.Prelude.{◌≡◌, ℕ, ◌+◌, ◌<◌, ◌≤◌, [], ◌∷◌, ◌++◌, map, length, take};
ghost use Rattle.rules.specs.Tree.{sets_of};
ghost use Rattle.std.specs.List.{AllByRecursion};
ghost use Rattle.tree.specs.Nodes.{Sound, SoundIn, entry_of, boxes_of, Written, Fitted, one, total, times, inside, node};

use crate::boxes::Boxes;
use crate::division::group_of;
use crate::entries::Entries;
use crate::fixed::{Sets, box_around, point_of};
use crate::node::{Node, NodeEntry};
use crate::nodes::{Nodes, Subtree};

impl Nodes {
    // The box of an entry: the point of a clip at height 0, and above that a node's own.
    pub(crate) fn sets_of(&self, height: usize, e: NodeEntry) -> Sets
        requires { Sound self.now.places.items height e }
        ensures { take self.now.dims result ≡ sets_of height (entry_of self.now.dims self.now.places.items height e) }
    {
        if height == 0 {
            point_of(e.clip().letters)
        } else {
            self.places[e.place()].sets
        }
    }

    // The boxes of some entries of one height, in their order.
    pub(crate) fn boxes_of(&self, height: usize, entries: &[NodeEntry]) -> [Sets; 9]
        requires few { length entries.now ≤ 9 }
        requires sound { AllByRecursion (Sound self.now.places.items height) entries.now }
        ensures { map (take self.now.dims) (take (length entries.now) result) ≡ boxes_of self.now.dims self.now.places.items height entries.now }
    {
        // By index: after a zip with iter_mut the proof has not the boxes that were written.
        let mut boxes = [[0; 10]; 9];
        for (i, e) in entries.iter().enumerate() {
            boxes[i] = self.sets_of(height, *e);
        }
        boxes
    }

    // Makes a node of some entries.
    pub(crate) fn write(&mut self, at: Subtree, entries: &[NodeEntry])
        requires few { length entries.now ≤ 8 }
        requires sound { AllByRecursion (Sound self.old.places.items at.height) entries.now }
        requires within { at.place < length self.old.places.items }
        ensures written { Written self.old.dims self.old.places.items self.new.places.items at.height at.place entries.now }
        ensures dims { self.new.dims ≡ self.old.dims }
    {
        let boxes = self.boxes_of(at.height, entries);
        let sets = box_around(&boxes[..entries.len()]);
        self.places[at.place] = Node::new(sets, entries);
    }

    // Settles some entries in a node. Where they are nine, they are divided, and one group goes to the node `spare`: says whether it was so.
    pub(crate) fn settle(&mut self, at: Subtree, spare: usize, entries: &[NodeEntry]) -> bool
        requires some { 0 < length entries.now }
        requires few { length entries.now ≤ 9 }
        requires sound { AllByRecursion (Sound self.old.places.items at.height) entries.now }
        requires within { at.place < length self.old.places.items }
        requires room { spare < length self.old.places.items }
        requires apart { (k : ℕ) → one at.place k + one spare k + total (λ e. times self.old.places.items at.height e k) entries.now ≤ 1 }
        ensures fitted { Fitted self.old.dims self.old.places.items self.new.places.items at.height at.place spare entries.now result }
        ensures dims { self.new.dims ≡ self.old.dims }
    {
        if entries.len() <= 8 {
            self.write(at, entries);
            return false;
        }
        let boxes = self.boxes_of(at.height, entries);
        let boxes = Boxes {
            sets: &boxes[..entries.len()],
            dims: self.dims,
        };
        let code = boxes.best_division();
        let stay = group_of(code, false, entries);
        let leave = group_of(code, true, entries);
        self.write(at, stay.as_slice());
        let other = Subtree {
            place: spare,
            height: at.height,
        };
        self.write(other, leave.as_slice());
        true
    }

    // Adds an entry to a node, which is divided where it has eight: says whether it was so.
    pub(crate) fn add(&mut self, at: Subtree, spare: usize, entry: NodeEntry) -> bool
        requires sound { AllByRecursion (Sound self.old.places.items at.height) (inside (node self.old.places.items at.place) ++ entry ∷ []) }
        requires within { at.place < length self.old.places.items }
        requires room { spare < length self.old.places.items }
        requires apart { (k : ℕ) → one at.place k + one spare k + total (λ e. times self.old.places.items at.height e k) (inside (node self.old.places.items at.place) ++ entry ∷ []) ≤ 1 }
        ensures fitted { Fitted self.old.dims self.old.places.items self.new.places.items at.height at.place spare (inside (node self.old.places.items at.place) ++ entry ∷ []) result }
        ensures dims { self.new.dims ≡ self.old.dims }
    {
        let mut entries = Entries::copied(self.places[at.place].entries());
        entries.push(entry);
        self.settle(at, spare, entries.as_slice())
    }

    // Makes a node anew of its own entries.
    pub(crate) fn rebox(&mut self, at: Subtree)
        requires { SoundIn self.old.places.items at.height at.place }
        ensures written { Written self.old.dims self.old.places.items self.new.places.items at.height at.place (inside (node self.old.places.items at.place)) }
        ensures dims { self.new.dims ≡ self.old.dims }
    {
        let node = self.places[at.place];
        self.write(at, node.entries());
    }
}
