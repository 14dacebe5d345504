// How the clips set aside enter the tree again.
ghost use Rattle.std.specs.Prelude.{◌≡◌, ◌+◌, ◌*◌, ◌≤◌, length};
ghost use Rattle.tree.specs.Standing.{Stands, rows_of, EnteredAgain};

use crate::free::FreePlaces;
use crate::nodes::{Nodes, Subtree};
use crate::worklist::Worklist;

impl Nodes {
    // Enters the clips of a worklist that is in order, one after the other, and says the root after.
    pub(crate) fn enter_again(
        &mut self,
        free: &mut FreePlaces,
        root: Subtree,
        worklist: &Worklist,
    ) -> Subtree
        requires stands { Stands self.old.dims (rows_of self.old.dims self.old.places.items root.height root.place + worklist.now.clips) self.old.places.items free.old.places.items free.old.used root.height root.place }
        requires words { 2 * worklist.now.clips ≤ length worklist.now.words.now }
        ensures entered { EnteredAgain self.old.dims self.old.places.items self.new.places.items free.old.places.items worklist.now.words.now root.height root.place worklist.now.clips worklist.now.clips free.new.used result.height result.place }
        ensures dims { self.new.dims ≡ self.old.dims }
        ensures free { free.new.places.items ≡ free.old.places.items }
    {
        let mut after = root;
        // By place: a clip is put together from two of the lent words, so the worklist has none to go over.
        for k in 0..worklist.clips {
            after = self.enter_clip(free, after, worklist.ordered_at(k));
        }
        after
    }
}
