// The edges: one and ten dimensions, sizes 1 and 64, letter 63, empty sets.
use crate::*;
use std::test::Fail;

#[test]
fn letters_of_a_set(rt: HostRuntime) {
    assert!(rt; has(1, 0));
    assert!(rt; has(1 << 63, 63));
    assert!(rt; !has(u64::MAX, 64));
    assert!(rt; !has(0, 0));
}

#[test]
fn vectors_in_boxes(rt: HostRuntime) {
    assert!(rt; contains(&[3, 4], &[1, 2]));
    assert!(rt; !contains(&[3, 4], &[1, 1]));
    assert!(rt; !contains(&[3, 4], &[1]));
    assert!(rt; !contains(&[3, 0], &[1, 0]));
}

#[test]
fn joined_boxes(rt: HostRuntime) {
    let mut sets = [1u64, 0, 8];
    join(&mut sets, &[2, 0, 8]);
    assert_eq!(rt; sets, [3u64, 0, 8]);
    join(&mut sets, &[4]);
    assert_eq!(rt; sets, [7u64, 0, 8]);
}

#[test]
fn rewritten_sets(rt: HostRuntime) {
    let mut sets = [7u64, 6, 5];
    rewrite(&mut sets, &[4u64, 2], |set, barred| set & !barred);
    assert_eq!(rt; sets, [3u64, 4, 5]);
    rewrite(&mut sets, &[1u64, 2, 3, 4], |set, more| set | more);
    assert_eq!(rt; sets, [3u64, 6, 7]);
}

#[test]
fn box_of_a_vector(rt: HostRuntime) {
    let mut sets = [9u64; 3];
    point(&mut sets, &[0, 63]);
    assert_eq!(rt; sets, [1u64, 1 << 63, 9]);
    point(&mut sets, &[64, 1, 2, 3]);
    assert_eq!(rt; sets, [0u64, 2, 4]);
}

#[test]
fn areas(rt: HostRuntime) {
    assert_eq!(rt; area(&[3, 7]), Some(6));
    assert_eq!(rt; area(&[u64::MAX; 10]), Some(1 << 60));
    assert_eq!(rt; area(&[5, 0]), Some(0));
    assert_eq!(rt; area(&[]), None);
    assert_eq!(rt; area(&[1; 11]), None);
}

#[test]
fn common_areas(rt: HostRuntime) {
    assert_eq!(rt; common_area(&[3, 7], &[2, 12]), Some(1));
    assert_eq!(rt; common_area(&[3, 7], &[4, 1]), Some(0));
    assert_eq!(rt;
        common_area(&[u64::MAX; 10], &[u64::MAX; 10]),
        Some(1 << 60)
    );
    assert_eq!(rt; common_area(&[3, 7], &[3]), None);
}

#[test]
fn plans(rt: HostRuntime) {
    assert_eq!(rt; check_plan(&[1]), Ok(()));
    assert_eq!(rt; check_plan(&[64; 10]), Ok(()));
    assert_eq!(rt; check_plan(&[]), Err(PlanFault::Dimensions));
    assert_eq!(rt; check_plan(&[1; 11]), Err(PlanFault::Dimensions));
    assert_eq!(rt; check_plan(&[4, 65, 0]), Err(PlanFault::Size(2)));
    assert_eq!(rt; check_plan(&[4, 1, 0]), Err(PlanFault::Size(3)));
    assert_eq!(rt; PlanFault::Size(3).number(), 1);
    assert_eq!(rt; PlanFault::Dimensions.place(), 0);
}

#[test]
fn clips(rt: HostRuntime) {
    assert_eq!(rt; check_clip(&[1, 64], 1, &[0, 63]), Ok(()));
    assert_eq!(rt; check_clip(&[1, 64], 0, &[9]), Err(ClipFault::Number));
    assert_eq!(rt; check_clip(&[1, 64], 1, &[9]), Err(ClipFault::Dimensions));
    assert_eq!(rt;
        check_clip(&[1, 64], 1, &[1, 64]),
        Err(ClipFault::Letter(1))
    );
    assert_eq!(rt; check_vector(&[1, 64], &[0, 64]), Err(ClipFault::Letter(2)));
    assert_eq!(rt; ClipFault::Letter(2).place(), 2);
    assert_eq!(rt; ClipFault::Dimensions.number(), 8);
}

#[test]
fn letters_of_clips(rt: HostRuntime) -> Result<(), Fail> {
    let stored = StoredClip {
        number: 7,
        letters: [3, 0, 63, 0, 0, 0, 0, 0, 0, 9],
    };
    assert!(rt; stored.letters(1)[..] == [3][..]);
    assert!(rt; stored.letters(3)[..] == [3, 0, 63][..]);
    assert!(rt; stored.letters(10)[..] == stored.letters[..]);
    assert!(rt; stored.letters(11)[..] == stored.letters[..]);
    let clip = Clip {
        number: 7,
        letters: [3, 0].to_vec(rt.alloc())?,
    };
    assert!(rt; clip.letters(1)[..] == [3, 0][..]);
    Ok(())
}
