// What is at fault in a file.
ghost use Rattle.file.specs.Faults.{file_number, file_place, file_row};
ghost use Rattle.file.specs.declared.fault.FileFault.TheVariants.{Row};
ghost use Rattle.std.specs.Prelude.{◌≡◌};

use space::ClipFault;

// What is at fault in a row, counted from 1.
#[derive(Clone, Copy, PartialEq, Eq, Debug)]
pub struct RowFault {
    pub row: usize,
    pub fault: ClipFault,
}

// A file does not begin with the plan, has too few bytes or too many for the rows that it announces, or has a row at fault.
#[derive(Clone, Copy, PartialEq, Eq, Debug)]
pub enum FileFault {
    Plan,
    Short,
    Long,
    Row(RowFault),
}

// A row's fault goes on whole: its number, its place and its row.
impl From<RowFault> for FileFault {
    ghost from_gives = { λ e r. r ≡ Row e };

    fn from(e: RowFault) -> FileFault {
        FileFault::Row(e)
    }
}

impl FileFault {
    // The number of the refusal.
    pub fn number(self) -> u32
        ensures { result ≡ file_number self }
    {
        match self {
            FileFault::Plan => 4,
            FileFault::Short => 5,
            FileFault::Long => 6,
            FileFault::Row(fault) => fault.fault.number(),
        }
    }

    // The dimension of the first letter at fault, from 1; else 0, by which the rules tell none.
    pub fn place(self) -> usize
        ensures { result ≡ file_place self }
    {
        match self {
            FileFault::Plan | FileFault::Short | FileFault::Long => 0,
            FileFault::Row(fault) => fault.fault.place(),
        }
    }

    // The row at fault, from 1; else 0, by which the rules tell none.
    pub fn row(self) -> usize
        ensures { result ≡ file_row self }
    {
        match self {
            FileFault::Plan | FileFault::Short | FileFault::Long => 0,
            FileFault::Row(fault) => fault.row,
        }
    }
}
