// The numbered refusals of a catalogue's calls.
#![tactic(auto)]

mod fault;
mod laws;
mod refusal;

pub use fault::{FitFault, StateFault};
pub use laws::layers_stand;
pub use refusal::{Layer, Refusal};

#[cfg(test)]
mod tests;
