// A list in rank is the front of a slice; what lies behind the front is left alone.
ghost use Rattle.std.specs.Prelude.{◌≡◌, ◌+◌, ◌≤◌, min, ◌∷◌, ◌++◌, length, take, drop, nat_lt};
ghost use Rattle.ranked.specs.LawsRank.{RankingStands};
ghost use Rattle.ranked.specs.Rank.{InRank, Order, Tie, keep_first, place, rank_of, ranked};
ghost use Rattle.std.specs.List.{insert};

use crate::order::Ranked;

// How many elements stand to the left of the item's place.
fn rank<T: Ranked>(list: &[T], item: &T) -> usize
    ensures { result ≡ rank_of T.before item.now list.now }
{
    let behind = list.iter().position(|x| item.precedes(x));
    behind.unwrap_or(list.len())
}

// Writes the item at `at`, and moves what stood in `at..end` one place up; the last of these falls out.
fn put<T: Copy>(list: &mut [T], at: usize, end: usize, item: T)
    requires { (at ≤ end) × (end ≤ length list.old) }
    ensures front { take end list.new ≡ take end (insert list.old at item) }
    ensures back { drop end list.new ≡ drop end list.old }
{
    if at < end {
        list.copy_within(at..end - 1, at + 1);
        list[at] = item;
    }
}

// Puts the item at its place among the first `len` elements, or among all if there are fewer, and answers how many stand there then.
// A full list gives up its last. If the list was in rank, it then has the first of its own and the item together, and is in rank.
pub fn insert<T: Ranked>(list: &mut [T], len: usize, item: T) -> usize
    ensures count { result ≡ min (len + 1) (length list.old) }
    ensures front { take result list.new ≡ take (length list.old) (place T.before item (take len list.old)) }
    ensures back { drop result list.new ≡ drop result list.old }
    ensures first { InRank T.before (take len list.old) → take result list.new ≡ take (length list.old) (ranked T.before (item ∷ take len list.old)) }
    ensures stays { InRank T.before (take len list.old) → InRank T.before (take result list.new) }
{
    let held = len.min(list.len());
    let at = rank(&list[0..held], &item);
    let end = if held < list.len() { held + 1 } else { held };
    put(list, at, end, item);
    end
}

// Inserts the items one after another. If the list was in rank, it then has the first of its own and all the items together.
pub fn insert_all<T: Ranked>(list: &mut [T], len: usize, items: &[T]) -> usize
    ensures count { result ≡ min (len + length items.now) (length list.old) }
    ensures front { take result list.new ≡ keep_first T.before (length list.old) (take len list.old) items.now }
    ensures back { drop result list.new ≡ drop result list.old }
    ensures first { InRank T.before (take len list.old) → take result list.new ≡ take (length list.old) (ranked T.before (items.now ++ take len list.old)) }
    ensures stays { InRank T.before (take len list.old) → InRank T.before (take result list.new) }
{
    let mut held = len.min(list.len());
    for item in items {
        held = insert(list, held, *item);
    }
    held
}

// The ranking of a list is the one list in rank with its elements, and a list that is cut off at each insertion keeps just its front,
// whatever order the entries come in.
// Standing before is an order, and of two entries of which neither stands before the other both are one value.
pub fn ranking_stands<T: Ranked>()
    ensures order { Order T.before }
    ensures tie { Tie T.before }
    ensures ranking { RankingStands T.before }
{}

// Puts a whole list of numbers in rank.
pub fn sort_words(list: &mut [u64])
    ensures { list.new ≡ ranked nat_lt list.old }
{
    list.sort_unstable();
}
