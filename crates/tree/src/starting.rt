// Whether an index can be started, and how.
ghost use Rattle.std.specs.Prelude.{◌≡◌, length, IfOk};
ghost use Rattle.refusals.specs.Refused.{refusal_of};
ghost use Rattle.rules.specs.Refusals.{of_fit};
ghost use Rattle.rules.specs.State.{standing};
ghost use Rattle.rules.specs.Tree.{empty};
ghost use Rattle.tree.specs.Seen.{seen_index, index_boxes};
ghost use Rattle.tree.specs.Tables.{table_boxes};

use crate::free::FreePlaces;
use crate::index::Index;
use crate::nodes::{Nodes, Subtree};
use crate::padded::padded;
use crate::table::Table;
use refusals::{FitFault, Refusal};
use space::{MOST_CLIPS, check_plan};

// Whether a start with that plan, that capacity and a table of so many boxes would stand.
pub fn fit(plan: &[u8], capacity: u32, boxes: usize) -> Result<(), Refusal>
    ensures { refusal_of result ≡ of_fit plan.now capacity boxes }
{
    check_plan(plan)?;
    // By `as`, here and below, which is proved to lose nothing: between u32 and usize there is no From.
    if !(1..=MOST_CLIPS).contains(&(capacity as usize)) {
        return Err(Refusal::Fit(FitFault::Capacity));
    }
    if boxes < (capacity as usize / 2).max(1) {
        return Err(Refusal::Fit(FitFault::Table));
    }
    Ok(())
}

impl Index {
    // An empty index of that plan and capacity in the table: its root is an empty leaf.
    pub fn start(plan: &[u8], capacity: u32, table: Table) -> Result<Index, Refusal>
        ensures told { refusal_of result ≡ of_fit plan.now capacity (table_boxes table) }
        ensures made { IfOk result (λ x. (seen_index x ≡ standing plan.now capacity (empty (length plan.now))) × (index_boxes x ≡ table_boxes table)) }
    {
        fit(plan, capacity, table.boxes())?;
        let Table { nodes, free } = table;
        let mut nodes = Nodes {
            dims: plan.len(),
            places: nodes,
        };
        let root = Subtree {
            place: 0,
            height: 0,
        };
        nodes.write(root, &[]);
        Ok(Index {
            sizes: padded(plan, 0),
            capacity,
            nodes,
            free: FreePlaces {
                places: free,
                used: 1,
            },
            root,
            clips: 0,
            highest: 0,
        })
    }
}
