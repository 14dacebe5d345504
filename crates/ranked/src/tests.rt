ghost use Rattle.std.proofs.Common.{rules};
ghost use Rattle.std.specs.Prelude.{◌≡◌, Bool, nat_lt};

use crate::*;
use std::test::Fail;

// Ranks the later first, and compares by the earlier: how a type ranks is its own, and need not be how it compares.
#[derive(Clone, Copy, PartialEq, Eq, PartialOrd, Ord, Debug)]
struct Late {
    at: u32,
}

impl Ranked for Late {
    ghost before = { λ a b. nat_lt b.at a.at };

    ghost order = { Prim.search rules };

    ghost tie = { Prim.search rules };

    fn precedes(&self, other: &Late) -> bool {
        other.at < self.at
    }
}

// What compares as it ranks is told by its comparison.
fn is_before<T: Ordered>(a: &T, b: &T) -> bool
    ensures { result ≡ T.before a.now b.now }
{
    a < b
}

fn find(distance: u32, clip: u32) -> Find {
    Find { distance, clip }
}

#[test]
fn no_room(rt: HostRuntime) {
    let mut none: [u64; 0] = [];
    assert_eq!(rt; insert(&mut none, 0, 7), 0);
    assert_eq!(rt; insert_all(&mut none, 3, &[7, 8]), 0);
}

#[test]
fn full_list_gives_up_its_last(rt: HostRuntime) {
    let mut list: [u64; 3] = [2, 4, 6];
    assert_eq!(rt; insert(&mut list, 3, 3), 3);
    assert_eq!(rt; list, [2, 3, 4]);
    assert_eq!(rt; insert(&mut list, 3, 9), 3);
    assert_eq!(rt; list, [2, 3, 4]);
}

#[test]
fn equal_entries_stay_side_by_side(rt: HostRuntime) {
    let mut list: [u64; 5] = [0; 5];
    assert_eq!(rt; insert_all(&mut list, 0, &[5, 3, 5, 3]), 4);
    assert_eq!(rt; list, [3, 3, 5, 5, 0]);
}

#[test]
fn lower_clip_first_at_one_distance(rt: HostRuntime) {
    let mut list = [find(0, 0); 3];
    assert_eq!(rt;
        insert_all(&mut list, 0, &[find(2, 9), find(2, 4), find(1, 7)]),
        3
    );
    assert_eq!(rt; list, [find(1, 7), find(2, 4), find(2, 9)]);
}

#[test]
fn length_above_the_slice(rt: HostRuntime) {
    let mut list: [u64; 2] = [1, 5];
    assert_eq!(rt; insert(&mut list, 9, 3), 2);
    assert_eq!(rt; list, [1, 3]);
}

#[test]
fn past_the_end_is_kept(rt: HostRuntime) {
    let mut list: [u64; 4] = [6, 9, 8, 7];
    assert_eq!(rt; insert(&mut list, 1, 2), 2);
    assert_eq!(rt; list, [2, 6, 8, 7]);
}

#[test]
fn finds_read(rt: HostRuntime) -> Result<(), Fail> {
    let text = find(3, 7).to_string(rt.alloc())?;
    assert!(rt; text.as_str() == "clip 7 at 3");
    Ok(())
}

#[test]
fn finds_compare_by_distance_first(rt: HostRuntime) {
    assert!(rt; find(1, 9) < find(2, 4));
    assert!(rt; find(2, 4) < find(2, 9));
    assert!(rt; find(2, 4) == find(2, 4));
}

#[test]
fn ranks_otherwise_than_it_compares(rt: HostRuntime) {
    let mut list = [Late { at: 0 }; 3];
    let items = [Late { at: 4 }, Late { at: 9 }, Late { at: 7 }];
    assert_eq!(rt; insert_all(&mut list, 0, &items), 3);
    assert_eq!(rt; list, [Late { at: 9 }, Late { at: 7 }, Late { at: 4 }]);
    assert!(rt; list[0].precedes(&list[1]));
}

#[test]
fn finds_and_numbers_compare_as_they_rank(rt: HostRuntime) {
    assert!(rt; is_before(&find(1, 9), &find(2, 4)));
    assert!(rt; !is_before(&find(2, 4), &find(1, 9)));
    assert!(rt; is_before(&find(2, 4), &find(2, 9)));
    assert!(rt; !is_before(&find(2, 4), &find(2, 4)));
    assert!(rt; is_before(&6u64, &7));
    assert!(rt; !is_before(&7u64, &7));
}
