// Entries kept in rank at the front of a lent slice. What has an order is `Ranked`; numbers and finds are.
#![tactic(auto)]

mod find;
mod list;
mod order;
#[cfg(test)]
mod tests;

pub use find::Find;
pub use list::{insert, insert_all, ranking_stands, sort_words};
pub use order::{Ordered, Ranked};
