// A count: in a library, how many clips have which letter in which dimension. The type stands alone in its file, since the definitions
// that speak of it cannot be imported where it is declared.
ghost use Rattle.std.specs.Prelude.{ℕ, ◌≤◌};
ghost use Rattle.measures.specs.Counts.{Shaped, number_at};

// Of so many dimensions, from 1 to 10, and of a total N of clips, from 1 to 4,096: for each dimension and letter a number from 0 to N.
#[derive(Drop)]
pub struct Count {
    pub(crate) dimensions: usize,
    pub(crate) total: u32,
    pub(crate) numbers: [[u16; 64]; 10],
    ghost least: { 1 ≤ dimensions },
    ghost most: { dimensions ≤ 10 },
    ghost some: { 1 ≤ total },
    ghost few: { total ≤ 4096 },
    ghost shape: { Shaped numbers },
    ghost each: { (i l : ℕ) → number_at numbers i l ≤ total },
}
