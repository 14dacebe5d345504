// Calls as values. The type stands alone in its file, since the definitions that speak of it cannot be imported where it is declared.

// A call that changes a catalogue, with its arguments.
#[derive(Drop, Debug)]
pub enum Call {
    Enter { number: u32, letters: Vec<u8> },
    Withdraw { number: u32 },
    Load { file: Vec<u8> },
}
