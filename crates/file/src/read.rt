// The rows of a file, one at a time.
ghost use Rattle.file.specs.Reads.{row_at};
ghost use Rattle.std.specs.Prelude.{◌≡◌};

use crate::parts::{cut_rows, letters_at, number_in};
use space::{DIMENSIONS, StoredClip};

// The row at that index, counted from 0, of a file that was checked. None where the plan has too many sizes, the file has not the
// length that its rows ask for, or it has no such row.
pub fn row_at(plan: &[u8], file: &[u8], index: usize) -> Option<StoredClip>
    ensures { result ≡ row_at plan.now file.now index }
{
    let d = plan.len();
    if d > DIMENSIONS {
        return None;
    }
    let rest = file.get(1 + d..)?;
    let rows = cut_rows(d, rest).ok()?;
    let number = number_in(*rows.numbers.get(index)?);
    let mut letters = [0; DIMENSIONS];
    letters[..d].copy_from_slice(letters_at(d, rows.letters, index));
    Some(StoredClip { number, letters })
}
