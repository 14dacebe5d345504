// The tree of a catalogue in a table of boxes.
#![tactic(auto)]

mod again;
mod aside;
mod boxes;
mod calls;
mod choice;
mod division;
mod entering;
mod entries;
mod fixed;
mod free;
mod index;
mod leaving;
mod listing;
mod lookup;
mod making;
mod node;
mod nodes;
mod padded;
mod starting;
mod table;
#[cfg(test)]
mod tests;
mod withdrawing;
mod worklist;
mod writing;

pub use index::Index;
pub use starting::fit;
pub use table::Table;
