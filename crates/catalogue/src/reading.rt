// The calls that only read a catalogue.
ghost use Rattle.catalogue.specs.Reads.{CountedAs, LoadsBack, SavedAs};
ghost use Rattle.catalogue.specs.Seen.{seen_of};
ghost use Rattle.refusals.specs.Refused.{refusal_of};
ghost use Rattle.rules.specs.Refusals.{of_count, of_save};
ghost use Rattle.rules.specs.File.{saved};
ghost use Rattle.rules.specs.State.{save_told, count_told};
ghost use Rattle.rules.specs.Tree.{rows_in};
ghost use Rattle.tree.specs.Seen.{plan_of, tree_in, seen_index};
ghost use Rattle.std.specs.Prelude.{◌≡◌, length};

use crate::catalogue::Catalogue;
use file::write_file;
use measures::Count;
use refusals::{Refusal, StateFault};
use space::{MOST_CLIPS, StoredClip};
use tree::Index;

// Writes the file of an index.
fn save_index(index: &Index, output: &mut [u8]) -> Result<usize, Refusal>
    ensures told { refusal_of result ≡ of_save (length (saved (plan_of index.now) (rows_in (tree_in index.now)))) (length output.old) }
    ensures bytes { SavedAs (seen_index index.now) output.old output.new result }
{
    let mut clips = [StoredClip::default(); MOST_CLIPS];
    let n = index.rising(&mut clips).unwrap_or(0);
    write_file(index.plan(), &clips[0..n], output).ok_or(Refusal::State(StateFault::Output))
}

// Counts the clips of an index.
fn count_index(index: &Index, count: &mut Count) -> Result<(), Refusal>
    ensures told { refusal_of result ≡ of_count (rows_in (tree_in index.now)) }
    ensures numbers { CountedAs (seen_index index.now) count.old count.new result }
{
    let mut clips = [StoredClip::default(); MOST_CLIPS];
    let n = index.clips(&mut clips).unwrap_or(0);
    *count = Count::of(index.plan(), &clips[0..n]).ok_or(StateFault::Empty)?;
    Ok(())
}

impl Catalogue {
    // Writes the listed clips as a file, in rising number, to the front of the output, and answers how many bytes. On a refusal the output stays.
    pub fn save(&self, output: &mut [u8]) -> Result<usize, Refusal>
        ensures told { refusal_of result ≡ save_told (seen_of self.now) (length output.old) }
        ensures bytes { SavedAs (seen_of self.now) output.old output.new result }
        ensures loads { LoadsBack self.now }
    {
        let index = self.index.as_ref().ok_or(StateFault::Void)?;
        save_index(index, output)
    }

    // Sets the count to that of the listed clips. On a refusal the count stays.
    pub fn count(&self, count: &mut Count) -> Result<(), Refusal>
        ensures told { refusal_of result ≡ count_told (seen_of self.now) }
        ensures numbers { CountedAs (seen_of self.now) count.old count.new result }
    {
        let index = self.index.as_ref().ok_or(StateFault::Void)?;
        count_index(index, count)
    }
}
