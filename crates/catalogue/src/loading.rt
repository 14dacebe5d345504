// A file loaded into an empty catalogue.
ghost use Rattle.catalogue.specs.Loads.{Loaded, loaded_rows, SavesBack};
ghost use Rattle.catalogue.specs.Runs.{Does, RunsOn};
ghost use Rattle.catalogue.specs.Seen.{seen_of};
ghost use Rattle.file.specs.Checked.{checked};
ghost use Rattle.refusals.specs.Refused.{refusal_of};
ghost use Rattle.rules.specs.File.{file_rows, of_load};
ghost use Rattle.rules.specs.Register.{loads};
ghost use Rattle.rules.specs.Tree.{rows_in};
ghost use Rattle.std.specs.Prelude.{◌≡◌, length, IfOk, None, Ok, OnOk};
ghost use Rattle.tree.specs.Calls.{Does as IndexDoes};
ghost use Rattle.tree.specs.Seen.{plan_of, tree_in};

use crate::catalogue::Catalogue;
use file::{check_file, row_at};
use refusals::{Refusal, StateFault};
use tree::Index;

// Enters the rows of a file that was checked, in the file's order.
fn enter_rows(index: &mut Index, file: &[u8], n: usize)
    requires rows { checked (plan_of index.old) file.now ≡ Ok n }
    requires told { of_load (plan_of index.old) index.old.capacity (rows_in (tree_in index.old)) file.now ≡ None }
    ensures { Loaded index.old index.new file.now n }
{
    // By place: `row_at` is the one way in which a row of a file is read, and an iterator over it would be longer than this loop.
    for i in 0..n {
        if let Some(clip) = row_at(index.plan(), file, i) {
            let d = index.plan().len();
            let _ = index.enter(clip.number, &clip.letters[0..d]);
        }
    }
}

// Checks the whole file, and only then enters its rows.
fn load_file(index: &mut Index, file: &[u8]) -> Result<usize, Refusal>
    ensures does { IndexDoes index.old index.new (loads file.now) (refusal_of result) }
    ensures rows { IfOk result (λ n. n ≡ length (file_rows (plan_of index.old) file.now)) }
{
    let n = check_file(index.plan(), file)?;
    // By `as`, which is proved to lose nothing: between u32 and usize there is no From.
    if n > index.capacity() as usize {
        return Err(Refusal::State(StateFault::Full));
    }
    if index.len() != 0 {
        return Err(Refusal::State(StateFault::Filled));
    }
    enter_rows(index, file, n);
    Ok(n)
}

impl Catalogue {
    // Loads a file into an empty catalogue, and answers how many rows it has; or is refused, and then nothing changes. What was loaded is what a
    // save then writes.
    pub fn load(&mut self, file: &[u8]) -> Result<usize, Refusal>
        ensures does { Does self.old self.new (loads file.now) (refusal_of result) }
        ensures runs { RunsOn self.old self.new (loads file.now) (refusal_of result) }
        ensures rows { IfOk result (λ n. n ≡ length (loaded_rows (seen_of self.old) file.now)) }
        ensures saves { OnOk result (SavesBack (seen_of self.new) file.now) }
    {
        let index = self.index.as_mut().ok_or(StateFault::Void)?;
        load_file(index, file)
    }
}
