// Measures: how far a clip lies from a query, and how near a clip of a box can lie.
#![tactic(auto)]

mod bar;
mod cost;
mod count;
mod counting;
mod cut_off;
mod family;
mod geh;
mod hamming;
mod measure;

pub use bar::{Bar, bar_spares_stands};
pub use count::Count;
pub use counting::nothing_beyond_stands;
pub use cut_off::{CutOff, up_to};
pub use family::Family;
pub use geh::Geh;
pub use hamming::Hamming;
pub use measure::Measure;

#[cfg(test)]
mod tests;
