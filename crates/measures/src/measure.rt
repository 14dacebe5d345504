// What a measure is.
ghost use Rattle.std.specs.Prelude.{◌≡◌, ℕ, List, Option};
ghost use Rattle.measures.specs.Floor.{FloorRule};

// A measure tells the distance of a vector from a query, and the floor of a box: a number that no vector in the box lies below.
// Either may be none. Its meaning is two fixed functions, and the one thing that is asked of them is the floor rule.
pub trait Measure {
    ghost distances: { Self → List ℕ → List ℕ → Option ℕ };

    ghost floors: { Self → List ℕ → List ℕ → Option ℕ };

    fn distance(&self, query: &[u8], vector: &[u8]) -> Option<u32>
        ensures { result ≡ distances self.now query.now vector.now };

    fn floor(&self, query: &[u8], sets: &[u64]) -> Option<u32>
        ensures { result ≡ floors self.now query.now sets.now };

    ghost rule: { (m : Self) → FloorRule (distances m) (floors m) };
}
