// A list of calls made one after the other.
ghost use Rattle.std.specs.Prelude.{◌≡◌, min, length, take, replicate};
ghost use Rattle.catalogue.specs.Replays.{call_of, calls_of, numbered_all, Replayed, RunsAll};
ghost use Rattle.catalogue.specs.Runs.{Does};
ghost use Rattle.refusals.specs.Refused.{numbered};
ghost use Rattle.std.specs.Option.{option_map};

use crate::call::Call;
use crate::catalogue::Catalogue;
use crate::guard::Wiped;
use refusals::Refusal;

impl Catalogue {
    // Makes one call.
    fn make(&mut self, call: &Call, worklist: &mut [u64]) -> Option<Refusal>
        ensures { Does self.old self.new (call_of (length worklist.old) call.now) (option_map numbered result) }
    {
        match call {
            Call::Enter { number, letters } => self.enter(*number, letters).err(),
            Call::Withdraw { number } => self.withdraw(*number, worklist).err(),
            Call::Load { file } => self.load(file).err(),
        }
    }

    // Makes the calls one after the other, as many as there is room for answers, and answers how many. Each withdrawal is lent the whole
    // worklist, which comes back as zeros.
    pub fn replay(
        &mut self,
        calls: &[Call],
        answers: &mut [Option<Refusal>],
        worklist: &mut [u64],
    ) -> usize
        ensures does { Replayed self.old self.new (calls_of (length worklist.old) calls.now) answers.old answers.new result }
        ensures many { result ≡ min (length calls.now) (length answers.old) }
        ensures runs { RunsAll self.old self.new (take result (calls_of (length worklist.old) calls.now)) (numbered_all (take result answers.new)) }
        ensures wiped { worklist.new ≡ replicate (length worklist.old) 0 }
    {
        let guard = Wiped { words: worklist };
        let n = calls.len().min(answers.len());
        // The answers by index: a zip with iter_mut leaves the proof without the written values.
        for (i, call) in calls[0..n].iter().enumerate() {
            answers[i] = self.make(call, guard.words);
        }
        n
    }
}
