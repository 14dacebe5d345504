// Lines of text, and the fields of a line: numbers in base ten, one space before each.
#![tactic(auto)]

mod cut;
mod fields;
mod laws;
#[cfg(test)]
mod tests;
mod walk;

pub use cut::cut_line;
pub use fields::{FieldsError, read_fields};
pub use laws::{fields_stand, lines_stand};
pub use walk::{Line, Lines};
