// The clips that a withdrawal sets aside, in words that the caller lends.
ghost use Rattle.std.specs.Prelude.{◌≡◌, suc, ◌+◌, ◌*◌, ◌^◌, ◌<◌, ◌≤◌, [], ◌∷◌, ◌++◌, length, slice_index};
ghost use Rattle.tree.specs.Leaving.{asides, clip_by, InOrder};
ghost use Rattle.tree.specs.Nodes.{Lettered};

use crate::aside::{keyed_at, lay_aside, order_asides};
use space::StoredClip;

// The words, and how many clips are set aside in them.
#[derive(Drop)]
pub(crate) struct Worklist<'a> {
    pub(crate) words: &'a mut [u64],
    pub(crate) clips: usize,
}

impl Worklist<'_> {
    // Sets one more clip aside.
    pub(crate) fn lay(&mut self, clip: StoredClip)
        requires letters { Lettered clip }
        requires room { 2 * self.old.clips + 1 < length self.old.words.now }
        ensures clips { self.new.clips ≡ self.old.clips + 1 }
        ensures aside { asides self.new.words.now (suc self.old.clips) ≡ asides self.old.words.now self.old.clips ++ clip ∷ [] }
        ensures words { length self.new.words.now ≡ length self.old.words.now }
    {
        lay_aside(self.words, self.clips, clip);
        self.clips += 1;
    }

    // Puts the clips in rising number.
    pub(crate) fn order(&mut self)
        requires few { self.old.clips < 2 ^ 32 }
        requires room { 2 * self.old.clips ≤ length self.old.words.now }
        ensures clips { self.new.clips ≡ self.old.clips }
        ensures order { InOrder self.old.words.now self.new.words.now self.old.clips }
    {
        order_asides(self.words, self.clips);
    }

    // The clip at k, once they are in order.
    pub(crate) fn ordered_at(&self, k: usize) -> StoredClip
        requires { 2 * k + 1 < length self.now.words.now }
        ensures { result ≡ clip_by self.now.words.now (slice_index self.now.words.now k) }
    {
        keyed_at(self.words, k)
    }
}
