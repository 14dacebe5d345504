// How a table is made.
ghost use Rattle.std.specs.Prelude.{◌≡◌, IfOk};
ghost use Rattle.tree.specs.Tables.{table_boxes};

use crate::node::{Node, NodeEntry};
use crate::table::Table;
use std::alloc::{AllocError, Global};

// Entering a clip is handed as many free places as the tree is high, and two. No tree of 4,096 clips is higher than 6, so with these places more
// than it may use, a table never lacks them.
const RESERVE: usize = 8;

const BLANK: Node = Node {
    sets: [0; 10],
    len: 0,
    entries: [NodeEntry::Free; 8],
};

impl Table {
    // A table of so many boxes. Nothing else takes memory.
    pub fn new(heap: Global, boxes: usize) -> Result<Table, AllocError>
        ensures { IfOk result (λ t. table_boxes t ≡ boxes) }
    {
        let nodes = vec![in heap; BLANK; boxes.saturating_add(RESERVE)]?;
        let free = (0..nodes.len()).collect(heap)?;
        Ok(Table { nodes, free })
    }

    // How many boxes it was made for.
    pub fn boxes(&self) -> usize
        ensures { result ≡ table_boxes self.now }
    {
        self.nodes.len() - RESERVE
    }
}
