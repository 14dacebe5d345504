// Laws of the boxes of a tree and of the searches over it. Each function is the claim that its law is proved.
ghost use Rattle.rules.specs.LawsBoxes.{RowsHeld};
ghost use Rattle.rules.specs.LawsSearch.{RulesHold, SearchFinds, VisitedHits, WalkFinds};

// Every clip below a box of the tree lies in it.
pub fn rows_held_stands()
    ensures { RowsHeld }
{}

// A measure's floor rule holds of every box of the tree, at each query: its floor is not above the distance of any clip below it.
pub fn rules_hold_stands()
    ensures { RulesHold }
{}

// The search that opens the box with the least floor first finds the k nearest, and opens just the boxes that a search within the kth distance
// opens, or within the largest radius if finds are fewer, where the floor rule holds of every box.
pub fn search_finds_stands()
    ensures { SearchFinds }
{}

// A search within a radius leaves no hit out: the leaves that it opens have all of them.
pub fn visited_hits_stands()
    ensures { VisitedHits }
{}

// The search within a radius finds all hits, in the order of finds, and opens just the boxes that it should.
pub fn walk_finds_stands()
    ensures { WalkFinds }
{}
