// What a command that is obeyed is answered with, and how it reads.
use crate::answer::Answer;
use std::fmt;

#[derive(Drop)]
pub enum Reply {
    // A new library, of so many dimensions.
    Begun(usize),
    Listed(u32),
    Barred(u32, u8),
    CutOff(u32),
    Found(Answer),
}

impl fmt::Display for Reply {
    fn fmt<W: fmt::Write>(&self, f: &mut fmt::Formatter<W>) -> fmt::Result {
        match self {
            Reply::Begun(dimensions) => write!(f, "new library, dimensions: {dimensions}"),
            Reply::Listed(number) => write!(f, "clip {number} listed"),
            Reply::Barred(dimension, letter) => write!(
                f,
                "letter {letter} barred in dimension {dimension}"
            ),
            Reply::CutOff(limit) => write!(f, "cut-off {limit}"),
            Reply::Found(answer) => write!(f, "{answer}"),
        }
    }
}
