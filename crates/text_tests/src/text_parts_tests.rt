use std::test::Fail;
use text_parts::*;

#[test]
fn numbers_have_one_spelling(rt: HostRuntime) -> Result<(), Fail> {
    for (text, want) in [
        (b"0".as_slice(), Some(0)),
        (b"7".as_slice(), Some(7)),
        (b"4294967296".as_slice(), Some(4294967296)),
        (b"18446744073709551615".as_slice(), Some(u64::MAX)),
        (b"18446744073709551616".as_slice(), None),
        (b"".as_slice(), None),
        (b"01".as_slice(), None),
        (b"+1".as_slice(), None),
        (b"1 ".as_slice(), None),
    ] {
        assert!(rt; read_number(text) == want);
    }
    let mut out = Vec::new(rt.alloc());
    write_number(u64::MAX, &mut out)?;
    assert!(rt; out.as_slice() == b"18446744073709551615".as_slice());
    Ok(())
}

#[test]
fn a_number_is_taken_from_the_front(rt: HostRuntime) {
    for (text, want) in [
        (b"0.1".as_slice(), Some((0, b".1".as_slice()))),
        (b"417".as_slice(), Some((417, b"".as_slice()))),
        (
            b"18446744073709551615 x".as_slice(),
            Some((u64::MAX, b" x".as_slice())),
        ),
        (b"18446744073709551616 ".as_slice(), None),
        (b"01 ".as_slice(), None),
        (b" 1".as_slice(), None),
        (b"".as_slice(), None),
    ] {
        assert!(rt; take_number(text) == want);
    }
}

#[test]
fn the_first_separator_parts(rt: HostRuntime) {
    assert!(rt; split_at_first(b"a b c", b' ') == Some((b"a".as_slice(), b"b c".as_slice())));
    assert!(rt; split_at_first(b"abc", b' ') == None);
    assert!(rt; split_at_next(b"a b c", b' ') == Some((b"a".as_slice(), b"b c".as_slice())));
    assert!(rt; split_at_next(b"abc", b' ') == None);
}
