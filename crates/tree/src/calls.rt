// The calls that change an index.
ghost use Rattle.std.specs.Prelude.{◌≡◌, ◌*◌, ◌<◌, ◌≤◌, true, false, length, is_some};
ghost use Rattle.refusals.specs.Refused.{refusal_of};
ghost use Rattle.rules.specs.Register.{enters, withdraws};
ghost use Rattle.rules.specs.Rows.{lists};
ghost use Rattle.rules.specs.Tree.{rows_in};
ghost use Rattle.space.specs.Boxes.{dimensions};
ghost use Rattle.space.specs.Plans.{vector_fault};
ghost use Rattle.space.specs.Row.{stored_row};
ghost use Rattle.tree.specs.Calls.{stored_or, Entered, Left, Does};
ghost use Rattle.tree.specs.Nodes.{Lettered};
ghost use Rattle.tree.specs.Seen.{plan_of, tree_in};

use crate::index::Index;
use crate::node::NodeEntry;
use crate::padded::padded;
use refusals::{Refusal, StateFault};
use space::{ClipFault, StoredClip, check_clip};

// A clip of the plan in a place of fixed size, or what is at fault in it first.
fn store_clip(plan: &[u8], number: u32, letters: &[u8]) -> Result<StoredClip, ClipFault>
    requires { length plan.now ≤ 10 }
    ensures { result ≡ stored_or plan.now number letters.now }
{
    check_clip(plan, number, letters)?;
    Ok(StoredClip {
        number,
        letters: padded(letters, 0),
    })
}

impl Index {
    // The sizes of its dimensions.
    pub fn plan(&self) -> &[u8]
        ensures value { result.now ≡ plan_of self.now }
        ensures axes { dimensions (length result.now) ≡ true }
    {
        &self.sizes[..self.nodes.dims]
    }

    // Whether a clip of that number is listed. One above the highest is not, so that clips in rising number are entered without a look at all.
    pub fn lists(&self, number: u32) -> bool
        ensures { result ≡ lists number (rows_in (tree_in self.now)) }
    {
        number <= self.highest
            && self.nodes.is_listed(
                self.root.height + 1,
                NodeEntry::Place(self.root.place),
                number,
            )
    }

    // Enters a clip that is not listed, where there is room.
    fn enter_new(&mut self, clip: StoredClip)
        requires letters { Lettered clip }
        requires new { lists clip.number (rows_in (tree_in self.old)) ≡ false }
        requires proper { is_some (vector_fault (plan_of self.old) (stored_row (length (plan_of self.old)) clip).letters) ≡ false }
        requires room { length (rows_in (tree_in self.old)) < self.old.capacity }
        ensures { Entered self.old self.new clip }
    {
        self.root = self.nodes.enter_clip(&mut self.free, self.root, clip);
        self.clips += 1;
        self.highest = self.highest.max(clip.number);
    }

    // Enters a clip, or is refused, and then nothing changes.
    pub fn enter(&mut self, number: u32, letters: &[u8]) -> Result<(), Refusal>
        ensures { Does self.old self.new (enters number letters.now) (refusal_of result) }
    {
        let clip = store_clip(self.plan(), number, letters)?;
        if self.lists(number) {
            return Err(Refusal::State(StateFault::Listed));
        }
        // By `as`, which is proved to lose nothing: between u32 and usize there is no From.
        if self.clips >= self.capacity as usize {
            return Err(Refusal::State(StateFault::Full));
        }
        self.enter_new(clip);
        Ok(())
    }

    // Withdraws a listed clip, with room for twice as many words as clips are listed.
    fn withdraw_one(&mut self, number: u32, worklist: &mut [u64])
        requires listed { lists number (rows_in (tree_in self.old)) ≡ true }
        requires words { 2 * length (rows_in (tree_in self.old)) ≤ length worklist.old }
        ensures { Left self.old self.new number }
    {
        self.root = self
            .nodes
            .withdraw(&mut self.free, self.root, number, worklist);
        self.clips -= 1;
        // An empty index takes any number for a new one.
        if self.clips == 0 {
            self.highest = 0;
        }
    }

    // Withdraws a clip, or is refused, and then nothing of the index changes. What the worklist holds after is left open.
    pub fn withdraw(&mut self, number: u32, worklist: &mut [u64]) -> Result<(), Refusal>
        ensures { Does self.old self.new (withdraws number (length worklist.old)) (refusal_of result) }
    {
        if number == 0 {
            return Err(Refusal::Clip(ClipFault::Number));
        }
        if !self.lists(number) {
            return Err(Refusal::State(StateFault::Missing));
        }
        if worklist.len() < 2 * self.clips {
            return Err(Refusal::State(StateFault::Worklist));
        }
        self.withdraw_one(number, worklist);
        Ok(())
    }
}
