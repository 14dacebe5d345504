// Boxes in places of fixed size: ten sets, of which as many count as there are dimensions.
ghost use Rattle.std.specs.Prelude.{◌≡◌, ◌^◌, ◌≤◌, length};
ghost use Rattle.space.specs.Boxes.{area, common, join, point, around};

// One set for each of ten dimensions.
pub type Sets = [u64; 10];

// The letters of either box.
pub(crate) fn union_of(mut a: Sets, b: Sets) -> Sets
    ensures { result ≡ join a b }
{
    space::join(&mut a, &b);
    a
}

// The number of vectors in a box. Of no dimensions there is one vector, of no letters.
pub(crate) fn area_of(sets: &[u64]) -> u64
    requires { length sets.now ≤ 10 }
    ensures value { result ≡ area sets.now }
    ensures small { result ≤ 2 ^ 60 }
{
    space::area(sets).unwrap_or(1)
}

// The number of vectors in both of two boxes.
pub(crate) fn common_of(a: &[u64], b: &[u64]) -> u64
    requires short { length a.now ≤ 10 }
    requires same { length a.now ≡ length b.now }
    ensures value { result ≡ common a.now b.now }
    ensures small { result ≤ 2 ^ 60 }
{
    space::common_area(a, b).unwrap_or(1)
}

// The box of one vector.
pub(crate) fn point_of(letters: [u8; 10]) -> Sets
    ensures { result ≡ point letters }
{
    let mut sets = [0; 10];
    space::point(&mut sets, &letters);
    sets
}

// The smallest box around some boxes.
pub(crate) fn box_around(boxes: &[Sets]) -> Sets
    ensures { result ≡ around 10 boxes.now }
{
    boxes.iter().copied().fold([0; 10], union_of)
}
