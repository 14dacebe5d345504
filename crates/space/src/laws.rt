// Laws of the definitions that the contracts cite. Each function is the claim that its law is proved.
ghost use Rattle.space.specs.LawsBoxes.{Areas, AroundExact, InAround, InPoint};

// The smallest box around some boxes has in each dimension exactly the letters that occur in them.
pub fn around_exact_stands()
    ensures { AroundExact }
{}

// A vector is in the smallest box around any boxes one of which has it.
pub fn in_around_stands()
    ensures { InAround }
{}

// A vector is in its own box.
pub fn in_point_stands()
    ensures { InPoint }
{}

// The common area is the area of the box of the common letters, and an area of d sets is at most 64 to the d.
pub fn areas_stand()
    ensures { Areas }
{}
