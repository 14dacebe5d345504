// Ties, no slots, more slots than finds, clips without a distance.
use crate::*;
use measures::{Bar, Hamming};
use std::alloc::{AllocError, Global};
use std::test::Fail;

fn find(distance: u32, clip: u32) -> Find {
    Find { distance, clip }
}

fn library(heap: Global) -> Result<Vec<Clip>, AllocError> {
    let mut clips = Vec::new(heap);
    clips.push(Clip {
        number: 7,
        letters: [0, 3].to_vec(heap)?,
    })?;
    clips.push(Clip {
        number: 6,
        letters: [1, 3].to_vec(heap)?,
    })?;
    clips.push(Clip {
        number: 5,
        letters: [0, 3].to_vec(heap)?,
    })?;
    clips.push(Clip {
        number: 4,
        letters: [1, 1].to_vec(heap)?,
    })?;
    Ok(clips)
}

#[test]
fn lower_number_first(rt: HostRuntime) -> Result<(), Fail> {
    let clips = library(rt.alloc())?;
    let mut slots = [find(9, 9); 2];
    assert_eq!(rt; nearest(&Hamming, &[0, 3], &clips, &mut slots), 2);
    assert_eq!(rt; slots, [find(0, 5), find(0, 7)]);
    Ok(())
}

#[test]
fn other_slots_stay(rt: HostRuntime) -> Result<(), Fail> {
    let clips = library(rt.alloc())?;
    let mut slots = [find(9, 9); 4];
    let bar = Bar::new([2, 0, 0, 0, 0, 0, 0, 0, 0, 0], Hamming);
    assert_eq!(rt; nearest(&bar, &[0, 0], &clips, &mut slots), 2);
    assert_eq!(rt; slots, [find(1, 5), find(1, 7), find(9, 9), find(9, 9)]);
    assert_eq!(rt; nearest(&bar, &[64, 0], &clips, &mut slots), 0);
    assert_eq!(rt; slots, [find(1, 5), find(1, 7), find(9, 9), find(9, 9)]);
    Ok(())
}

#[test]
fn hits_beyond_the_slots(rt: HostRuntime) -> Result<(), Fail> {
    let clips = library(rt.alloc())?;
    let mut slots = [find(9, 9); 2];
    assert_eq!(rt; within(&Hamming, &[0, 3], 1, &clips, &mut slots), 3);
    assert_eq!(rt; slots, [find(0, 5), find(0, 7)]);
    assert_eq!(rt;
        within(&Hamming, &[0, 3], u32::MAX, &clips, &mut slots[0..0]),
        4
    );
    assert_eq!(rt; within(&Hamming, &[2, 2], 1, &clips, &mut slots), 0);
    assert_eq!(rt; nearest(&Hamming, &[0, 3], &clips[0..0], &mut slots), 0);
    assert_eq!(rt; slots, [find(0, 5), find(0, 7)]);
    Ok(())
}
