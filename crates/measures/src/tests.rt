// The worked cases, and the edges: one and ten dimensions, letter 63, empty sets, 4,096 clips, limits 0 and 4,294,967,295.
use crate::*;
use space::{Clip, StoredClip};
use std::alloc::{AllocError, Global};
use std::test::Fail;

// A library of so many clips, all with these letters.
fn alike(heap: Global, letters: &[u8], clips: u32) -> Result<Vec<Clip>, AllocError> {
    let mut library = Vec::new(heap);
    for number in 0..clips {
        library.push(Clip {
            number,
            letters: letters.to_vec(heap)?,
        })?;
    }
    Ok(library)
}

#[test]
fn hamming(rt: HostRuntime) {
    assert_eq!(rt; Hamming.distance(&[0, 1, 2], &[0, 3, 2]), Some(1));
    assert_eq!(rt; Hamming.distance(&[63; 10], &[62; 10]), Some(10));
    assert_eq!(rt; Hamming.distance(&[0], &[0]), Some(0));
    assert_eq!(rt; Hamming.floor(&[0, 1], &[2, 3]), Some(1));
    assert_eq!(rt; Hamming.floor(&[63], &[0]), Some(1));
}

#[test]
fn no_vectors(rt: HostRuntime) {
    assert_eq!(rt; Hamming.distance(&[], &[]), None);
    assert_eq!(rt; Hamming.distance(&[0; 11], &[0; 11]), None);
    assert_eq!(rt; Hamming.distance(&[64], &[64]), None);
    assert_eq!(rt; Family.distance(&[0, 0], &[0]), None);
    assert_eq!(rt; Hamming.floor(&[0, 0], &[1]), None);
    assert_eq!(rt; CutOff::new(9, Hamming).floor(&[0; 11], &[1; 11]), None);
    assert_eq!(rt; Bar::new([0; 10], Hamming).distance(&[64], &[0]), None);
}

#[test]
fn families(rt: HostRuntime) {
    assert_eq!(rt; Family.distance(&[0, 9, 10, 55], &[0, 0, 9, 40]), Some(4));
    assert_eq!(rt;
        Family.distance(&[15, 16, 39, 56], &[10, 31, 40, 63]),
        Some(5)
    );
    assert_eq!(rt; Family.floor(&[0, 63], &[1 << 9, 1 << 55]), Some(3));
    assert_eq!(rt; Family.floor(&[0], &[0]), Some(2));
}

#[test]
fn geh(rt: HostRuntime) -> Result<(), Fail> {
    let mut library = alike(rt.alloc(), &[0, 0], 3)?;
    library.push(Clip {
        number: 9,
        letters: [1, 0].to_vec(rt.alloc())?,
    })?;
    let Some(count) = Count::of(&[2, 2], &library) else {
        return Err(Fail::new("no count"));
    };
    assert_eq!(rt; count.number(0, 0), 3);
    assert_eq!(rt; count.number(1, 0), 4);
    assert_eq!(rt; count.number(2, 0), 0);
    let geh = Geh::new(count);
    assert_eq!(rt; geh.distance(&[0, 0], &[0, 0]), Some(1));
    assert_eq!(rt; geh.distance(&[0, 0], &[1, 0]), Some(8));
    assert_eq!(rt; geh.distance(&[0, 0], &[0, 1]), Some(9));
    assert_eq!(rt; geh.floor(&[0, 0], &[2, 1]), Some(8));
    assert_eq!(rt; geh.distance(&[0], &[0]), None);
    assert_eq!(rt; geh.grade(1), 0);
    assert_eq!(rt; geh.grade(9), 1);
    Ok(())
}

#[test]
fn counts(rt: HostRuntime) -> Result<(), Fail> {
    let full = alike(rt.alloc(), &[63], 4096)?;
    let Some(count) = Count::of(&[64], &full) else {
        return Err(Fail::new("no count"));
    };
    assert_eq!(rt; count.number(0, 63), 4096);
    assert_eq!(rt; count.number(0, 64), 0);
    assert_eq!(rt; count.grade(u32::MAX), u32::MAX / 4096);
    assert!(rt; Count::of(&[63], &full).is_none());
    assert!(rt; Count::of(&[64], &full[0..0]).is_none());
    assert!(rt; Count::of(&[64, 1], &full).is_none());
    assert!(rt; Count::of(&[64], &alike(rt.alloc(), &[0], 4097)?).is_none());
    assert_eq!(rt; Count::fresh().grade(7), 7);
    assert_eq!(rt; Count::fresh().number(0, 0), 0);
    Ok(())
}

// A stored clip of two dimensions; no byte behind its letters is counted.
fn stored(number: u32, first: u8, second: u8) -> StoredClip {
    StoredClip {
        number,
        letters: [first, second, 7, 7, 7, 7, 7, 7, 7, 7],
    }
}

#[test]
fn stored_counts(rt: HostRuntime) {
    let clips = [
        stored(1, 0, 0),
        stored(2, 0, 0),
        stored(3, 1, 0),
        stored(4, 0, 0),
    ];
    let mut count = Count::fresh();
    if let Some(made) = Count::of(&[2, 2], &clips) {
        count = made;
    }
    assert_eq!(rt; count.number(0, 0), 3);
    assert_eq!(rt; count.number(0, 1), 1);
    assert_eq!(rt; count.number(1, 0), 4);
    assert_eq!(rt; count.number(1, 7), 0);
    assert_eq!(rt; count.number(2, 7), 0);
    assert_eq!(rt; count.grade(16), 2);
    assert!(rt; Count::of(&[2, 2, 7], &clips).is_none());
}

#[test]
fn bars(rt: HostRuntime) {
    let bar = Bar::new([0, 2, 0, 0, 0, 0, 0, 0, 0, 0], Hamming);
    assert_eq!(rt; bar.distance(&[0, 1], &[0, 1]), None);
    assert_eq!(rt; bar.distance(&[0, 1], &[0, 0]), Some(1));
    assert_eq!(rt; bar.floor(&[0, 1], &[1, 2]), None);
    assert_eq!(rt; bar.floor(&[0, 1], &[1, 3]), Some(1));
    assert_eq!(rt; bar.floor(&[0, 1], &[0, 1]), None);
}

#[test]
fn cut_offs(rt: HostRuntime) {
    let strict = CutOff::new(0, Hamming);
    assert_eq!(rt; strict.distance(&[0], &[0]), Some(0));
    assert_eq!(rt; strict.distance(&[0], &[1]), None);
    let all = CutOff::new(u32::MAX, Bar::new([1 << 63; 10], CutOff::new(1, Hamming)));
    assert_eq!(rt; all.distance(&[0, 0], &[1, 0]), Some(1));
    assert_eq!(rt; all.distance(&[0, 0], &[1, 1]), None);
    assert_eq!(rt; all.distance(&[0, 0], &[63, 0]), None);
    assert_eq!(rt; all.floor(&[0, 0], &[1 << 63 | 2, 1]), Some(1));
}
