// The edges of the line language.
use crate::*;
use std::test::Fail;

// What is wrong with a text; none where it has fields.
fn fault(rt: &HostRuntime, text: &[u8]) -> Option<FieldsError> {
    read_fields(rt.alloc(), text).err()
}

#[test]
fn values(rt: HostRuntime) -> Result<(), Fail> {
    assert_eq!(rt; read_fields(rt.alloc(), b"")?.as_slice(), [].as_slice());
    assert_eq!(rt; read_fields(rt.alloc(), b" 7")?.as_slice(), [7].as_slice());
    assert_eq!(rt;
        read_fields(rt.alloc(), b" 0 007 12")?.as_slice(),
        [0, 7, 12].as_slice()
    );
    assert_eq!(rt;
        read_fields(rt.alloc(), b" 4294967295")?.as_slice(),
        [4294967295].as_slice()
    );
    assert_eq!(rt;
        read_fields(rt.alloc(), b" 00000000004294967295")?.as_slice(),
        [4294967295].as_slice()
    );
    Ok(())
}

#[test]
fn faults(rt: HostRuntime) {
    let malformed = Some(FieldsError::Malformed);
    assert_eq!(rt; fault(&rt, b" 4294967296"), malformed);
    assert_eq!(rt; fault(&rt, b" 99999999999999999999999"), malformed);
    assert_eq!(rt; fault(&rt, b" "), malformed);
    assert_eq!(rt; fault(&rt, b" 1  2"), malformed);
    assert_eq!(rt; fault(&rt, b"  1"), malformed);
    assert_eq!(rt; fault(&rt, b" 1 "), malformed);
    assert_eq!(rt; fault(&rt, b"1"), malformed);
    assert_eq!(rt; fault(&rt, b" +1"), malformed);
    assert_eq!(rt; fault(&rt, b" -1"), malformed);
    assert_eq!(rt; fault(&rt, b"\t1"), malformed);
    assert_eq!(rt; fault(&rt, b" 1\r"), malformed);
    assert_eq!(rt; fault(&rt, b" 1/"), malformed);
    assert_eq!(rt; fault(&rt, b" 1:"), malformed);
}

#[test]
fn cuts(rt: HostRuntime) {
    assert_eq!(rt;
        cut_line(b"ab\ncd\n"),
        (b"ab".as_slice(), Some(b"cd\n".as_slice()))
    );
    assert_eq!(rt; cut_line(b"\n"), (b"".as_slice(), Some(b"".as_slice())));
    assert_eq!(rt; cut_line(b"ab"), (b"ab".as_slice(), None));
}

#[test]
fn walks(rt: HostRuntime) {
    let ended = |text| Some(Line { text, ended: true });
    let last = |text| Some(Line { text, ended: false });
    let mut lines = Lines::of(b"ab\n\ncd");
    assert_eq!(rt; lines.next(), ended(b"ab"));
    assert_eq!(rt; lines.next(), ended(b""));
    assert_eq!(rt; lines.next(), last(b"cd"));
    assert_eq!(rt; lines.next(), None);
    let mut lines = Lines::of(b"ab\n");
    assert_eq!(rt; lines.next(), ended(b"ab"));
    assert_eq!(rt; lines.next(), last(b""));
    assert_eq!(rt; lines.next(), None);
    assert_eq!(rt; Lines::of(b"").count(), 1);
}
