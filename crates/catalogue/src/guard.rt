// The words that are lent to a call are handed back as zeros.
ghost use Rattle.std.specs.Prelude.{◌≡◌, length, replicate};

// Holds lent words, and zeroes them when it is let go, whichever way a call ends.
pub struct Wiped<'a> {
    pub(crate) words: &'a mut [u64],
}

impl Drop for Wiped<'_> {
    fn drop(self)
        ensures { self.exit.0.now ≡ replicate (length self.entry.words.now) 0 }
    {
        self.words.fill(0);
        let Wiped { words: _ } = self;
    }
}
