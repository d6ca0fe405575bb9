use grove_names::*;
use std::cmp::Ordering;
use std::test::Fail;

#[test]
fn names_are_read(rt: HostRuntime) {
    for (text, author, counter) in [
        (b"3.17".as_slice(), 3, 17),
        (b"0.0".as_slice(), 0, 0),
        (
            b"4294967295.18446744073709551615".as_slice(),
            u32::MAX,
            u64::MAX,
        ),
    ] {
        assert!(rt; read_name(text) == Ok(Name { author, counter }));
    }
    for text in [
        b"".as_slice(),
        b"3".as_slice(),
        b"3.".as_slice(),
        b".17".as_slice(),
        b"3.017".as_slice(),
        b"3.17.1".as_slice(),
        b"+3.17".as_slice(),
        b"3. 17".as_slice(),
        b"4294967296.1".as_slice(),
        b"1.18446744073709551616".as_slice(),
    ] {
        assert!(rt; read_name(text) == Err(NameFault::NotAName));
    }
}

#[test]
fn names_are_written(rt: HostRuntime) -> Result<(), Fail> {
    let mut out = Vec::from_slice(rt.alloc(), b"+")?;
    write_name(
        Name {
            author: 3,
            counter: 17,
        },
        &mut out,
    )?;
    assert!(rt; out.as_slice() == b"+3.17".as_slice());
    Ok(())
}

#[test]
fn the_author_is_compared_first(rt: HostRuntime) {
    let early = Name {
        author: 1,
        counter: 9,
    };
    let late = Name {
        author: 2,
        counter: 0,
    };
    assert!(rt; early.cmp(&late) == Ordering::Less);
}
