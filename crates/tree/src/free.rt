// The places of a tree that are not in use.
ghost use Rattle.std.specs.Prelude.{◌≤◌, vec_len};

// A stack that grows down: the free places are those of `places` from the place `used` on, and a tree has as many boxes as are not free.
#[derive(Drop)]
pub struct FreePlaces {
    pub(crate) places: Vec<usize>,
    pub(crate) used: usize,
    ghost within: { used ≤ vec_len places },
}

impl FreePlaces {
    ghost use Rattle.std.specs.Prelude.{◌≡◌, ◌-◌, ◌<◌, slice_set};

    // Takes a place back.
    pub(crate) fn put_back(&mut self, place: usize)
        requires { 0 < self.old.used }
        ensures used { self.new.used ≡ self.old.used - 1 }
        ensures places { self.new.places.items ≡ slice_set self.old.places.items (self.old.used - 1) place }
    {
        self.used -= 1;
        self.places[self.used] = place;
    }
}
