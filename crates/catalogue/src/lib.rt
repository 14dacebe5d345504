// A catalogue of clips: start, enter, withdraw, load, save and count, each proved to keep the promise over every run of calls.
#![tactic(auto)]

mod call;
mod catalogue;
mod changing;
mod guard;
mod loading;
mod reading;
mod replaying;
#[cfg(test)]
mod tests;

pub use call::Call;
pub use catalogue::Catalogue;
