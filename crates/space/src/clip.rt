// Clips, as a library and as a table hold them.

// A number from 1 on, and a letter for each dimension.
#[derive(Drop, Debug)]
pub struct Clip {
    pub number: u32,
    pub letters: Vec<u8>,
}

// A clip in a place of fixed size: of the ten bytes as many are letters as its plan has dimensions.
#[derive(Clone, Copy, PartialEq, Eq, Debug, Default)]
pub struct StoredClip {
    pub number: u32,
    pub letters: [u8; 10],
}
