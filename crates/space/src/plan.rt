// Plans, and the vectors and clips of a plan.
ghost use Rattle.space.specs.Plans.{plan_fault, vector_fault, clip_fault, unless_fault, plan_number, plan_place, clip_number, clip_place};
ghost use Rattle.std.specs.Prelude.{◌≡◌};

use crate::boxes::is_dimensions;

// What is at fault in a plan: how many sizes it has, or one of them, counted from 1.
#[derive(Clone, Copy, PartialEq, Eq, Debug)]
pub enum PlanFault {
    Dimensions,
    Size(usize),
}

// What is at fault in a clip: its number, how many letters it has, or one of them, counted from 1.
#[derive(Clone, Copy, PartialEq, Eq, Debug)]
pub enum ClipFault {
    Number,
    Dimensions,
    Letter(usize),
}

impl PlanFault {
    // The number of the refusal.
    pub fn number(self) -> u32
        ensures { result ≡ plan_number self }
    {
        match self {
            PlanFault::Dimensions | PlanFault::Size(_) => 1,
        }
    }

    // The dimension of the first size at fault, from 1; 0, by which the rules tell none, where there are too few sizes or too many.
    pub fn place(self) -> usize
        ensures { result ≡ plan_place self }
    {
        match self {
            PlanFault::Dimensions => 0,
            PlanFault::Size(place) => place,
        }
    }
}

impl ClipFault {
    // The number of the refusal.
    pub fn number(self) -> u32
        ensures { result ≡ clip_number self }
    {
        match self {
            ClipFault::Number => 7,
            ClipFault::Dimensions => 8,
            ClipFault::Letter(_) => 9,
        }
    }

    // The dimension of the first letter at fault, from 1; else 0, by which the rules tell none.
    pub fn place(self) -> usize
        ensures { result ≡ clip_place self }
    {
        match self {
            ClipFault::Number | ClipFault::Dimensions => 0,
            ClipFault::Letter(place) => place,
        }
    }
}

// Whether the sizes are a plan: 1 to 10 of them, each from 1 to 64. Else what is at fault first.
pub fn check_plan(sizes: &[u8]) -> Result<(), PlanFault>
    ensures { result ≡ unless_fault (plan_fault sizes.now) }
{
    if !is_dimensions(sizes.len()) {
        return Err(PlanFault::Dimensions);
    }
    let fault = sizes.iter().position(|size| !(1..=64).contains(size));
    fault.map_or(Ok(()), |i| Err(PlanFault::Size(i + 1)))
}

// Whether the letters are a vector of the plan: as many as there are sizes, each below its size. Else what is at fault first.
pub fn check_vector(sizes: &[u8], letters: &[u8]) -> Result<(), ClipFault>
    ensures { result ≡ unless_fault (vector_fault sizes.now letters.now) }
{
    if letters.len() != sizes.len() {
        return Err(ClipFault::Dimensions);
    }
    let mut pairs = letters.iter().zip(sizes);
    let fault = pairs.position(|(letter, size)| *letter >= *size);
    fault.map_or(Ok(()), |i| Err(ClipFault::Letter(i + 1)))
}

// Whether number and letters are a clip of the plan: a number from 1 on, and a vector of the plan. Else what is at fault first.
pub fn check_clip(sizes: &[u8], number: u32, letters: &[u8]) -> Result<(), ClipFault>
    ensures { result ≡ unless_fault (clip_fault sizes.now number letters.now) }
{
    if number == 0 {
        return Err(ClipFault::Number);
    }
    check_vector(sizes, letters)
}
