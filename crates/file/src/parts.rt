// The parts of a file: the plan at its front, and behind it how many rows there are, their numbers and their letters.
ghost use Rattle.std.specs.Prelude.{◌≡◌, ◌+◌, ◌*◌, ◌<◌, ◌≤◌, length, take, drop, Some, MatchResult};
ghost use Rattle.file.specs.Checked.{length_fault};
ghost use Rattle.file.specs.Cut.{Planned, Unplanned, Cut};
ghost use Rattle.rules.specs.File.{number_of};

use crate::fault::FileFault;
use std::cmp::Ordering;

// The rows of a file: the number of each in four bytes, and the letters of one behind those of another.
#[derive(Clone, Copy)]
pub(crate) struct Rows<'a> {
    pub(crate) numbers: &'a [[u8; 4]],
    pub(crate) letters: &'a [u8],
}

// What follows the plan in a file that begins with it.
#[tactic(auto, using(crate::proofs::Fronts::fronts))]
pub(crate) fn after_plan<'a>(plan: &[u8], file: &'a [u8]) -> Result<&'a [u8], FileFault>
    ensures { MatchResult result (λ rest. Planned plan.now file.now rest.now) (Unplanned plan.now file.now) }
{
    let (d, rest) = file.split_first().ok_or(FileFault::Plan)?;
    if usize::from(*d) != plan.len() {
        return Err(FileFault::Plan);
    }
    rest.strip_prefix(plan).ok_or(FileFault::Plan)
}

// The parts of what follows a plan of d sizes, if it is as long as the rows that it announces ask for.
pub(crate) fn cut_rows(d: usize, rest: &[u8]) -> Result<Rows<'_>, FileFault>
    requires { d < 256 }
    ensures { MatchResult result (λ rows. Cut d rest.now rows.numbers.now rows.letters.now) (λ e. length_fault d rest.now ≡ Some e) }
{
    let (announced, rows) = rest.split_first_chunk::<2>().ok_or(FileFault::Short)?;
    let count = usize::from(u16::from_le_bytes(*announced));
    match rows.len().cmp(&(4 * count + d * count)) {
        Ordering::Less => Err(FileFault::Short),
        Ordering::Greater => Err(FileFault::Long),
        Ordering::Equal => {
            let (numbers, letters) = rows.split_at(4 * count);
            let (numbers, _) = numbers.as_chunks::<4>();
            Ok(Rows { numbers, letters })
        }
    }
}

// The number in four bytes. That there are four is known of an argument, and not of an element of a slice.
pub(crate) fn number_in(bytes: [u8; 4]) -> u32
    ensures { result ≡ number_of bytes }
{
    u32::from_le_bytes(bytes)
}

// The letters of the row at that index.
pub(crate) fn letters_at(d: usize, letters: &[u8], index: usize) -> &[u8]
    requires { d * index + d ≤ length letters.now }
    ensures { result.now ≡ take d (drop (d * index) letters.now) }
{
    let at = d * index;
    &letters[at..at + d]
}
