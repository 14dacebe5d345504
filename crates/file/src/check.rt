// Whether a file is one of a plan.
ghost use Rattle.file.specs.Checked.{checked, in_row, letters_fault, number_fault};
ghost use Rattle.file.specs.Cut.{numbered};
ghost use Rattle.rules.specs.File.{rows_from};
ghost use Rattle.space.specs.Plans.{letter_fault, unless_fault};
ghost use Rattle.std.specs.Prelude.{◌≡◌, ◌*◌, ◌≤◌, [], length, map};

use crate::fault::{FileFault, RowFault};
use crate::parts::{after_plan, cut_rows, number_in};
use space::{ClipFault, check_vector};

// Whether the numbers of the rows rise from 1 on; else the first row whose number does not.
fn check_numbers(numbers: &[[u8; 4]]) -> Result<(), RowFault>
    ensures { result ≡ unless_fault (number_fault 1 0 (map numbered numbers.now)) }
{
    let mut last = 0;
    for (index, bytes) in numbers.iter().enumerate() {
        let number = number_in(*bytes);
        if number <= last {
            return Err(RowFault {
                row: index + 1,
                fault: ClipFault::Number,
            });
        }
        last = number;
    }
    Ok(())
}

// Whether the letters of a row are below their sizes; else the first that is not.
fn check_row(plan: &[u8], row: usize, letters: &[u8]) -> Result<(), RowFault>
    requires { length letters.now ≡ length plan.now }
    ensures { result ≡ unless_fault (in_row row (letter_fault 1 plan.now letters.now)) }
{
    check_vector(plan, letters).map_err(|fault| RowFault { row, fault })
}

// Whether the letters of so many rows are below their sizes; else the first row with one that is not.
#[tactic(auto, using(crate::proofs::Listed::steps))]
fn check_letters(plan: &[u8], count: usize, letters: &[u8]) -> Result<(), RowFault>
    requires { length plan.now * count ≤ length letters.now }
    ensures { result ≡ unless_fault (letters_fault 1 plan.now (rows_from count (length plan.now) [] letters.now)) }
{
    let mut rest = letters;
    // Counted: a plan that was not checked may have no sizes, and rows of no letters are no chunks of a list.
    for index in 0..count {
        let (letters, others) = rest.split_at(plan.len());
        check_row(plan, index + 1, letters)?;
        rest = others;
    }
    Ok(())
}

// How many rows a file of the plan has. Else what is at fault first: the plan, the length, then the number of any row, then a letter
// of any row.
#[tactic(auto, using(crate::proofs::Checks::checks))]
pub fn check_file(plan: &[u8], file: &[u8]) -> Result<usize, FileFault>
    ensures { result ≡ checked plan.now file.now }
{
    let rest = after_plan(plan, file)?;
    let rows = cut_rows(plan.len(), rest)?;
    let count = rows.numbers.len();
    check_numbers(rows.numbers)?;
    check_letters(plan, count, rows.letters)?;
    Ok(count)
}
