// A library of clips. The type stands alone in its file, since the definitions that speak of it cannot be imported where it is declared.
ghost use Rattle.std.specs.Prelude.{◌≡◌, ◌≤◌, true, false, length, is_some};
ghost use Rattle.pick.specs.Rows.{distinct, proper};
ghost use Rattle.space.specs.Plans.{plan_fault};
ghost use Rattle.space.specs.Row.{rows_of};

use space::Clip;

// A plan, clips of that plan with distinct numbers, 4,096 at most, and what the third measure leaves out: the barred letters of each
// dimension, and all that lies above the cut-off.
#[derive(Drop)]
pub struct Library {
    pub(crate) plan: Vec<u8>,
    pub(crate) clips: Vec<Clip>,
    pub(crate) bars: [u64; 10],
    pub(crate) limit: u32,
    ghost planned: { is_some (plan_fault plan.items) ≡ false },
    ghost of_plan: { proper plan.items (rows_of clips.items) ≡ true },
    ghost once: { distinct (rows_of clips.items) ≡ true },
    ghost few: { length (rows_of clips.items) ≤ 4096 },
}
