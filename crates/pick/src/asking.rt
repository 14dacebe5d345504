// Queries.
ghost use Rattle.pick.specs.Answers.{Answers, ask_fault, graded, geh_finds};
ghost use Rattle.pick.specs.Libraries.{Refuses, rows_in, sizes_of};
ghost use Rattle.rules.specs.Finds.{ranking};
ghost use Rattle.scan.specs.Distances.{far_by};
ghost use Rattle.space.specs.Plans.{unless_fault};
ghost use Rattle.space.specs.Row.{rows_of};
ghost use Rattle.std.specs.Prelude.{◌≡◌, map, take, IfOk, MatchResult};

use crate::answer::{Answer, Graded};
use crate::library::Library;
use crate::refusal::{Refusal, Trouble};
use measures::{Bar, Count, CutOff, Geh, Hamming, Measure};
use ranked::Find;
use scan::nearest;
use space::{Clip, check_vector};
use std::alloc::{AllocError, Global};

const MOST: u32 = 64;

// The first clips by a measure, at most `count` of them.
#[tactic(auto, using(crate::proofs::Findings::finds))]
fn nearest_finds<M: Measure>(
    heap: Global,
    measure: &M,
    query: &[u8],
    clips: &[Clip],
    count: usize,
) -> Result<Vec<Find>, AllocError>
    ensures { IfOk result (λ v. v.items ≡ take count (ranking (far_by (M.distances measure.now) query.now) (rows_of clips.now))) }
{
    let mut finds = vec![in heap; Find::default(); count]?;
    let found = nearest(measure, query, clips, &mut finds);
    finds.truncate(found);
    Ok(finds)
}

// Finds by GEH, each with its grade.
fn grade_all(heap: Global, geh: &Geh, finds: &[Find]) -> Result<Vec<Graded>, AllocError>
    ensures { IfOk result (λ v. v.items ≡ map (graded geh.now.count.dimensions geh.now.count.total) finds.now) }
{
    finds
        .iter()
        .map(|find| Graded {
            find: *find,
            grade: geh.grade(find.distance),
        })
        .collect(heap)
}

impl Library {
    // Whether the query can be asked. Else which rule refuses it first.
    fn check_query(&self, count: u32, query: &[u8]) -> Result<(), Refusal>
        ensures { result ≡ unless_fault (ask_fault self.now count query.now) }
    {
        check_vector(&self.plan, query)?;
        if !(1..=MOST).contains(&count) {
            return Err(Refusal::Count);
        }
        Ok(())
    }

    // The nearest by GEH, by the count of these clips.
    #[tactic(auto, using(crate::proofs::Findings::uncountable))]
    fn nearest_by_geh(
        &self,
        heap: Global,
        count: usize,
        query: &[u8],
    ) -> Result<Vec<Graded>, AllocError>
        ensures { IfOk result (λ v. v.items ≡ geh_finds (sizes_of self.now) (rows_in self.now) count query.now) }
    {
        // Of no clips there is no count, and nothing to find.
        let Some(letters) = Count::of(&self.plan, &self.clips) else {
            return Ok(Vec::new(heap));
        };
        let geh = Geh::new(letters);
        let finds = nearest_finds(heap, &geh, query, &self.clips, count)?;
        grade_all(heap, &geh, &finds)
    }

    // The clips nearest to the query, at most `count` of them, by each of the three measures.
    pub fn ask(&self, heap: Global, count: u32, query: Vec<u8>) -> Result<Answer, Trouble>
        ensures { MatchResult result (Answers self.now count query.items) (Refuses (ask_fault self.now count query.items)) }
    {
        self.check_query(count, &query)?;
        // By `as`, which is proved to lose nothing: between u32 and usize there is no From.
        let most = count as usize;
        let hamming = nearest_finds(heap, &Hamming, &query, &self.clips, most)?;
        let geh = self.nearest_by_geh(heap, most, &query)?;
        let spared = CutOff::new(self.limit, Bar::new(self.bars, Hamming));
        let barred = nearest_finds(heap, &spared, &query, &self.clips, most)?;
        let clips = self.clips.len();
        Ok(Answer {
            query,
            clips,
            hamming,
            geh,
            barred,
        })
    }
}
