// The clips of an index, listed in the order of its tree and in rising number.
use crate::*;
use space::StoredClip;
use std::alloc::Global;
use std::process::Abort;
use std::test::Fail;

const MIXED: [u32; 12] = [40, 7, 4294967295, 3, 65, 12, 1, 99, 28, 5, 1000, 64];

const SORTED: [u32; 12] = [1, 3, 5, 7, 12, 28, 40, 64, 65, 99, 1000, 4294967295];

fn clip(number: u32) -> StoredClip {
    let mut letters = [0; 10];
    letters[0] = (number % 4) as u8;
    letters[1] = (number / 4 % 4) as u8;
    StoredClip { number, letters }
}

// An index that lists the clips of those numbers.
fn index_of(rt: &impl Abort, heap: Global, numbers: &[u32]) -> Result<Index, Fail> {
    let table = Table::new(heap, 64)?;
    let Ok(mut index) = Index::start(&[4, 4], 128, table) else {
        return Err(Fail::new("no index"));
    };
    for number in numbers {
        let c = clip(*number);
        assert!(rt; index.enter(*number, &c.letters[..2]).is_ok());
    }
    Ok(index)
}

fn withdraw_all(rt: &impl Abort, index: &mut Index, numbers: &[u32], worklist: &mut [u64]) {
    for number in numbers {
        assert!(rt; index.withdraw(*number, worklist).is_ok());
    }
}

#[test]
fn lists_every_clip(rt: HostRuntime) -> Result<(), Fail> {
    let index = index_of(&rt, rt.alloc(), &MIXED)?;
    assert_eq!(rt; index.capacity(), 128);
    assert_eq!(rt; index.len(), 12);
    assert_eq!(rt; index.boxes(), 3);
    let mut out = [StoredClip::default(); 13];
    assert_eq!(rt; index.clips(&mut out), Some(12));
    for number in MIXED {
        assert!(rt; out.contains(&clip(number)));
    }
    assert_eq!(rt; out[12], StoredClip::default());
    Ok(())
}

#[test]
fn lists_in_rising_number(rt: HostRuntime) -> Result<(), Fail> {
    let mut index = index_of(&rt, rt.alloc(), &MIXED)?;
    let mut out = [StoredClip::default(); 13];
    assert_eq!(rt; index.rising(&mut out), Some(12));
    for (found, number) in out.iter().zip(&SORTED) {
        assert_eq!(rt; *found, clip(*number));
    }
    assert_eq!(rt; out[12], StoredClip::default());
    withdraw_all(&rt, &mut index, &MIXED[..9], &mut [0; 24]);
    let mut rest = [StoredClip::default(); 3];
    assert_eq!(rt; index.rising(&mut rest), Some(3));
    assert_eq!(rt; rest, [clip(5), clip(64), clip(1000)]);
    Ok(())
}

#[test]
fn short_lists_stay(rt: HostRuntime) -> Result<(), Fail> {
    let index = index_of(&rt, rt.alloc(), &MIXED)?;
    let mut short = [StoredClip::default(); 11];
    assert_eq!(rt; index.clips(&mut short), None);
    assert_eq!(rt; index.rising(&mut short), None);
    assert_eq!(rt; short, [StoredClip::default(); 11]);
    Ok(())
}

#[test]
fn empty_index(rt: HostRuntime) -> Result<(), Fail> {
    let index = index_of(&rt, rt.alloc(), &[])?;
    assert_eq!(rt; index.clips(&mut []), Some(0));
    assert_eq!(rt; index.rising(&mut []), Some(0));
    assert_eq!(rt; index.len(), 0);
    assert_eq!(rt; index.boxes(), 1);
    Ok(())
}
