// A worked file, plan 4, 4 with the clips 5: (0, 3) and 9: (1, 3), and each way to spoil it.
use crate::*;
use space::StoredClip;

const PLAN: [u8; 2] = [4, 4];

const FILE: [u8; 17] = [2, 4, 4, 2, 0, 5, 0, 0, 0, 9, 0, 0, 0, 0, 3, 1, 3];

const FIVE: StoredClip = StoredClip {
    number: 5,
    letters: [0, 3, 0, 0, 0, 0, 0, 0, 0, 0],
};

const NINE: StoredClip = StoredClip {
    number: 9,
    letters: [1, 3, 0, 0, 0, 0, 0, 0, 0, 0],
};

// Number, place and row of the refusal of a file; zeros where it is not refused.
fn refusal(file: &[u8]) -> (u32, usize, usize) {
    check_file(&PLAN, file).err().map_or(
        (0, 0, 0),
        |fault| (fault.number(), fault.place(), fault.row()),
    )
}

#[test]
fn reads_the_file(rt: HostRuntime) {
    assert_eq!(rt; check_file(&PLAN, &FILE), Ok(2));
    assert_eq!(rt; row_at(&PLAN, &FILE, 0), Some(FIVE));
    assert_eq!(rt; row_at(&PLAN, &FILE, 1), Some(NINE));
    assert_eq!(rt; row_at(&PLAN, &FILE, 2), None);
    assert_eq!(rt; check_file(&PLAN, &[2, 4, 4, 0, 0]), Ok(0));
}

#[test]
fn writes_the_file(rt: HostRuntime) {
    let mut output = [7; 18];
    assert_eq!(rt; write_file(&PLAN, &[FIVE, NINE], &mut output), Some(17));
    assert!(rt; output[..17] == FILE[..]);
    assert_eq!(rt; output[17], 7);
    let mut short = [7; 16];
    assert_eq!(rt; write_file(&PLAN, &[FIVE, NINE], &mut short), None);
    assert_eq!(rt; short, [7; 16]);
    assert_eq!(rt; write_file(&[1; 11], &[], &mut output), None);
    assert_eq!(rt; write_file(&PLAN, &[], &mut short), Some(5));
}

#[test]
fn refuses_plan_and_length(rt: HostRuntime) {
    assert_eq!(rt; refusal(&[]), (4, 0, 0));
    assert_eq!(rt; refusal(&FILE[..2]), (4, 0, 0));
    assert_eq!(rt; refusal(&[2, 4, 5, 0, 0]), (4, 0, 0));
    assert_eq!(rt; refusal(&FILE[..3]), (5, 0, 0));
    assert_eq!(rt; refusal(&FILE[..16]), (5, 0, 0));
    assert_eq!(rt; refusal(&[2, 4, 4, 0, 1]), (5, 0, 0));
    assert_eq!(rt; refusal(&[2, 4, 4, 0, 0, 0]), (6, 0, 0));
}

#[test]
fn refuses_rows(rt: HostRuntime) {
    let mut file = FILE;
    file[13] = 4;
    assert_eq!(rt; refusal(&file), (9, 1, 1));
    assert_eq!(rt;
        check_file(&PLAN, &file),
        Err(FileFault::Row(RowFault {
            row: 1,
            fault: space::ClipFault::Letter(1),
        }))
    );
    // A number of a late row comes before a letter of an early one.
    file[9] = 5;
    assert_eq!(rt; refusal(&file), (7, 0, 2));
    file[5] = 0;
    assert_eq!(rt; refusal(&file), (7, 0, 1));
    file = FILE;
    file[16] = 4;
    assert_eq!(rt; refusal(&file), (9, 2, 2));
}
