// A clip withdrawn from the tree of a table, whole.
ghost use Rattle.std.specs.Prelude.{◌≡◌, ◌*◌, ◌≤◌, true, length};
ghost use Rattle.rules.specs.Finds.{Once};
ghost use Rattle.rules.specs.Rows.{lists};
ghost use Rattle.rules.specs.Tree.{rows_in};
ghost use Rattle.tree.specs.Nodes.{tree_of};
ghost use Rattle.tree.specs.Standing.{Stands, rows_of, Withdrew};

use crate::free::FreePlaces;
use crate::nodes::{Nodes, Subtree};
use crate::worklist::Worklist;

impl Nodes {
    // Takes a listed number out of the tree, and enters the clips that were set aside on the way again, in rising number. Says the root after.
    pub(crate) fn withdraw(
        &mut self,
        free: &mut FreePlaces,
        root: Subtree,
        number: u32,
        words: &mut [u64],
    ) -> Subtree
        requires stands { Stands self.old.dims (rows_of self.old.dims self.old.places.items root.height root.place) self.old.places.items free.old.places.items free.old.used root.height root.place }
        requires once { Once (rows_in (tree_of self.old.dims self.old.places.items root.height root.place)) }
        requires listed { lists number (rows_in (tree_of self.old.dims self.old.places.items root.height root.place)) ≡ true }
        requires words { 2 * rows_of self.old.dims self.old.places.items root.height root.place ≤ length words.old }
        ensures withdrew { Withdrew self.old.dims self.old.places.items self.new.places.items free.old.places.items free.new.places.items free.old.used root.height root.place number free.new.used result.height result.place }
        ensures dims { self.new.dims ≡ self.old.dims }
    {
        let mut worklist = Worklist { words, clips: 0 };
        let rest = self.withdraw_root(root, number, &mut worklist, free);
        worklist.order();
        self.enter_again(free, rest, &worklist)
    }
}
