// Laws of choice, division, entering and withdrawing. Each function is the claim that its law is proved.
ghost use Rattle.rules.specs.LawsChoice.{NeverShrinks, ChoiceFirst, DivisionBest, DivisionGroups};
ghost use Rattle.rules.specs.LawsEnter.{DivisionDivides, DividingBuilds, EnteringBuilds, EnteringAdds, EnteringBoxes};
ghost use Rattle.rules.specs.LawsTree.{FewBoxes, LowTree};
ghost use Rattle.rules.specs.LawsWithdraw.{WithdrawingLeaves, WithdrawingKeeps};

// No growth is negative: no area and no sum of common areas falls when a vector joins a box.
pub fn never_shrinks_stands()
    ensures { NeverShrinks }
{}

// The entry that is taken is the first with the least growth of common area, then of area, then the least area before; no other is.
pub fn choice_first_stands()
    ensures { ChoiceFirst }
{}

// The division has the least common area, then the least sum of areas, then the least code, of every division; no other has.
pub fn division_best_stands()
    ensures { DivisionBest }
{}

// Both groups together are the nine entries, each in its order; each has 3 to 6, and the first entry is in the first group.
pub fn division_groups_stand()
    ensures { DivisionGroups }
{}

// The code of the division divides. No other fact about it is used for the build, the rows and the boxes.
pub fn division_divides_stands()
    ensures { DivisionDivides }
{}

// Any code that divides makes of nine entries two boxes of the build, with the same rows.
pub fn dividing_builds_stands()
    ensures { DividingBuilds }
{}

// The empty tree has the build, and entering a clip keeps it.
pub fn entering_builds_stands()
    ensures { EnteringBuilds }
{}

// The rows after entering are the rows before and the new one, and so with many clips, one after the other.
pub fn entering_adds_stands()
    ensures { EnteringAdds }
{}

// Entering a clip makes the boxes no fewer.
pub fn entering_boxes_stands()
    ensures { EnteringBoxes }
{}

// What is left before the clips set aside are entered again has the build; fewer clips are set aside than there were rows.
pub fn withdrawing_leaves_stands()
    ensures { WithdrawingLeaves }
{}

// Withdrawing keeps the build, and the rows after it are the rows before without the one.
pub fn withdrawing_keeps_stands()
    ensures { WithdrawingKeeps }
{}

// A tree of two rows or more has at most half as many boxes as rows.
pub fn few_boxes_stands()
    ensures { FewBoxes }
{}

// A tree of at most 4,096 rows has a height of at most 6.
pub fn low_tree_stands()
    ensures { LowTree }
{}
