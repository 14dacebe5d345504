// The calls that make a catalogue and change it.
ghost use Rattle.catalogue.specs.Runs.{AtCapacity, Does, RunsOn, Started};
ghost use Rattle.refusals.specs.Refused.{refusal_of};
ghost use Rattle.rules.specs.Refusals.{of_fit};
ghost use Rattle.rules.specs.Register.{enters, withdraws};
ghost use Rattle.tree.specs.Tables.{table_boxes};
ghost use Rattle.std.specs.Prelude.{◌≡◌, length, replicate};

use crate::catalogue::Catalogue;
use crate::guard::Wiped;
use refusals::{Refusal, StateFault};
use tree::{Index, Table};

impl Catalogue {
    // Whether a start with that plan, that capacity and a table of so many boxes would stand.
    pub fn fit(plan: &[u8], capacity: u32, boxes: usize) -> Result<(), Refusal>
        ensures { refusal_of result ≡ of_fit plan.now capacity boxes }
    {
        tree::fit(plan, capacity, boxes)
    }

    // An empty catalogue of that plan and capacity in the table, or a void one where that is not fit.
    pub fn start(plan: &[u8], capacity: u32, table: Table) -> Catalogue
        ensures { Started plan.now capacity (table_boxes table) result }
    {
        Catalogue {
            index: Index::start(plan, capacity, table).ok(),
        }
    }

    // Enters a clip, or is refused, and then nothing changes.
    pub fn enter(&mut self, number: u32, letters: &[u8]) -> Result<(), Refusal>
        ensures does { Does self.old self.new (enters number letters.now) (refusal_of result) }
        ensures runs { RunsOn self.old self.new (enters number letters.now) (refusal_of result) }
        ensures full { AtCapacity self.old number letters.now (refusal_of result) }
    {
        let index = self.index.as_mut().ok_or(StateFault::Void)?;
        index.enter(number, letters)
    }

    // Withdraws a clip, or is refused, and then nothing changes. The worklist comes back as zeros on every way out.
    pub fn withdraw(&mut self, number: u32, worklist: &mut [u64]) -> Result<(), Refusal>
        ensures does { Does self.old self.new (withdraws number (length worklist.old)) (refusal_of result) }
        ensures runs { RunsOn self.old self.new (withdraws number (length worklist.old)) (refusal_of result) }
        ensures wiped { worklist.new ≡ replicate (length worklist.old) 0 }
    {
        let guard = Wiped { words: worklist };
        let index = self.index.as_mut().ok_or(StateFault::Void)?;
        index.withdraw(number, guard.words)
    }
}
