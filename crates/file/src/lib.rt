// The file of a catalogue: its bytes are checked, read row by row, and written.
#![tactic(auto)]

mod check;
mod fault;
mod laws;
mod parts;
mod read;
#[cfg(test)]
mod tests;
mod write;

pub use check::check_file;
pub use fault::{FileFault, RowFault};
pub use laws::{file_faults_refuse_stands, rows_read_stands, written_saves_stands};
pub use read::row_at;
pub use write::write_file;
