// Laws of the definitions that contracts cite. Each function is the claim that its law is proved.
ghost use Rattle.rules.specs.Refusals.{FaultsRefuse};
ghost use Rattle.rules.specs.Worked.{Worked};
ghost use Rattle.rules.specs.LawsFinds.{FilledSlots, HitsAll, HitsCounted, HitsWithin, RankingFirst, RankingOnly, RankingSame};

// The front of the ranking is the first k clips that have a distance, where no number stands twice.
pub fn ranking_first_stands()
    ensures { RankingFirst }
{}

// No other list is the first k clips that have a distance.
pub fn ranking_only_stands()
    ensures { RankingOnly }
{}

// The ranking does not turn on the order in which the rows stand.
pub fn ranking_same_stands()
    ensures { RankingSame }
{}

// The hits are all rows within the radius, in the order of finds.
pub fn hits_all_stands()
    ensures { HitsAll }
{}

// A find is a hit if a row has its number and its distance, and that is not above the radius, and only then.
pub fn hits_within_stands()
    ensures { HitsWithin }
{}

// There are as many hits as rows within the radius.
pub fn hits_counted_stands()
    ensures { HitsCounted }
{}

// Slots that a search fills have the finds first, as far as they go, and then what they had.
pub fn filled_slots_stands()
    ensures { FilledSlots }
{}

// The faults of plans, vectors and clips are the numbered refusals 1, 7, 8 and 9, with their places.
pub fn faults_refuse_stands()
    ensures { FaultsRefuse }
{}

// The worked cases come out as the rules tell them.
pub fn worked_cases()
    ensures { Worked }
{}
