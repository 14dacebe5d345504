// What describes a clip of a plan of so many dimensions. It stands apart from the clips, since the definitions that speak of a type
// cannot be imported where it is declared.
ghost use Rattle.std.specs.Prelude.{◌≡◌, ℕ};
ghost use Rattle.space.specs.Row.{Row, row_of, stored_row};

use crate::clip::{Clip, StoredClip};

// A form in which a program holds clips. How many letters it has of a clip may rest on the dimensions of the plan.
pub trait Described {
    // The clip as the rules see it, under a plan of so many dimensions.
    ghost row: { ℕ → Self → Row };

    fn letters(&self, dimensions: usize) -> &[u8]
        ensures { result.now ≡ (row dimensions self.now).letters };
}

// A clip that owns its letters has as many as it has, whatever the plan.
impl Described for Clip {
    ghost row = { λ d c. row_of c };

    fn letters(&self, _dimensions: usize) -> &[u8] {
        self.letters.as_slice()
    }
}

// Of the ten bytes of a stored clip the first are its letters; no plan has more than ten dimensions.
impl Described for StoredClip {
    ghost row = { stored_row };

    fn letters(&self, dimensions: usize) -> &[u8] {
        &self.letters[0..dimensions.min(10)]
    }
}
