// What a library keeps.
ghost use Rattle.pick.specs.Libraries.{Barred, Begun, CutAt, Listed, Refuses, bar_fault, list_fault, Unlisted};
ghost use Rattle.space.specs.Plans.{plan_fault, unless_fault};
ghost use Rattle.space.specs.declared.clip.Clip.{Clip};
ghost use Rattle.std.specs.List.{list_any};
ghost use Rattle.std.specs.Prelude.{◌==◌, ◌≡◌, Some, None, MatchResult};

use crate::library::Library;
use crate::refusal::{Refusal, Trouble};
use space::{Clip, ClipFault, MOST_CLIPS, PlanFault, check_clip, check_plan, set_of};
use std::alloc::Global;

// Whether a clip with the number is among the clips.
fn is_listed(clips: &[Clip], number: u32) -> bool
    ensures { result ≡ list_any (λ (c : Clip). c.number == number) clips.now }
{
    clips.iter().any(|clip| clip.number == number)
}

impl Library {
    // An empty library with that plan, nothing barred, and no cut-off.
    pub fn begin(heap: Global, plan: Vec<u8>) -> Result<Library, PlanFault>
        ensures { MatchResult result (Begun plan.items) (λ e. plan_fault plan.items ≡ Some e) }
    {
        check_plan(&plan)?;
        Ok(Library {
            plan,
            clips: Vec::new(heap),
            bars: [0; 10],
            limit: u32::MAX,
        })
    }

    // Whether a clip can be listed. Else which rule refuses it first.
    #[tactic(auto, using(crate::proofs::Checks::checks))]
    fn check_new(&self, number: u32, letters: &[u8]) -> Result<(), Refusal>
        ensures { result ≡ unless_fault (list_fault self.now number letters.now) }
    {
        check_clip(&self.plan, number, letters)?;
        if is_listed(&self.clips, number) {
            return Err(Refusal::Listed);
        }
        if self.clips.len() >= MOST_CLIPS {
            return Err(Refusal::Full);
        }
        Ok(())
    }

    // Lists a clip, behind those that are there.
    #[tactic(auto, using(crate::proofs::Checks::checks))]
    pub fn list(&mut self, number: u32, letters: Vec<u8>) -> Result<(), Trouble>
        ensures { MatchResult result (λ _. (list_fault self.old number letters.items ≡ None) × Listed self.old self.new number letters.items) (λ e. Refuses (list_fault self.old number letters.items) e × Unlisted self.old self.new e) }
    {
        self.check_new(number, &letters)?;
        self.clips.push(Clip { number, letters })?;
        Ok(())
    }

    // Bars a letter in a dimension, counted from 1.
    pub fn bar(&mut self, dimension: u32, letter: u8) -> Result<(), Refusal>
        ensures { MatchResult result (λ _. (bar_fault self.old dimension letter ≡ None) × Barred self.old self.new dimension letter) (λ e. (bar_fault self.old dimension letter ≡ Some e) × (self.new ≡ self.old)) }
    {
        // By `as`, which is proved to lose nothing: between u32 and usize there is no From.
        let place = dimension as usize;
        let index = place.checked_sub(1).ok_or(Refusal::NoDimension)?;
        let size = self.plan.get(index).ok_or(Refusal::NoDimension)?;
        if letter >= *size {
            return Err(ClipFault::Letter(place).into());
        }
        self.bars[index] |= set_of(letter);
        Ok(())
    }

    // Sets the cut-off.
    pub fn cut_off(&mut self, limit: u32)
        ensures { CutAt self.old self.new limit }
    {
        self.limit = limit;
    }
}
