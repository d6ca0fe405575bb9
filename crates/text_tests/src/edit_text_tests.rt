use edit_text::*;
use grove_edits::{Edit, EditList};
use grove_sorts::Version;
use std::test::Fail;

#[test]
fn each_fault_is_the_first(rt: HostRuntime) {
    for (line, want) in [
        (
            b"+1.2 0.0 root left 1.1 tnum".as_slice(),
            LineFault::NoPosition,
        ),
        (
            b"+0.2 0.0 root left 1.1 tnum".as_slice(),
            LineFault::BadVertex,
        ),
        (
            b"+1.2 0.0 root main 1.1 tnum".as_slice(),
            LineFault::WrongSort,
        ),
        (
            b"+1.02 0.0 root main 1.1 num:7".as_slice(),
            LineFault::Syntax,
        ),
        (
            b"+1.2  0.0 root main 1.1 num:7".as_slice(),
            LineFault::Syntax,
        ),
        (
            b"+1.2 0.0 root main 1.1 num:18446744073709551616".as_slice(),
            LineFault::Syntax,
        ),
        (b"+1.2 0.0 root main 1.1 word".as_slice(), LineFault::Syntax),
        (
            b"+1.2 0.0 root main 1.1 num:7 ".as_slice(),
            LineFault::Syntax,
        ),
        (b"".as_slice(), LineFault::Syntax),
    ] {
        assert!(rt; read_line(Version::Two, line) == Err(want));
    }
}

#[test]
fn lines_are_read_and_written(rt: HostRuntime) -> Result<(), Fail> {
    let mut edits = EditList::new(rt.alloc());
    for line in [
        b"-1.2 0.0 root main 1.1 num:7".as_slice(),
        b"+2.2 0.0 root main 2.1 var:x_1".as_slice(),
    ] {
        edits.push(read_line(Version::Two, line).ok().ok_or("a good line")?)?;
    }
    let mut out = Vec::new(rt.alloc());
    write_edits(edits.as_slice(), &mut out)?;
    assert!(rt;
        out.as_slice()
            == b"-1.2 0.0 root main 1.1 num:7\n+2.2 0.0 root main 2.1 var:x_1\n".as_slice()
    );
    Ok(())
}

#[test]
fn version_one_reads_neither_let_nor_long_identifiers(rt: HostRuntime) {
    for line in [
        b"+1.2 0.0 root main 1.1 let".as_slice(),
        b"+1.2 1.1 let def 1.3 true".as_slice(),
        b"+1.2 1.1 lam def 1.3 true".as_slice(),
        b"+1.2 0.0 root main 1.1 var:a2345678901234567890123456789_323".as_slice(),
    ] {
        assert!(rt; read_line(Version::One, line) == Err(LineFault::Syntax));
        assert!(rt; read_line(Version::Two, line) != Err(LineFault::Syntax));
    }
}

#[test]
fn a_text_tells_its_version_in_its_first_line(rt: HostRuntime) -> Result<(), Fail> {
    for (text, version, lines) in [
        (b"".as_slice(), Version::One, b"".as_slice()),
        (b"grove 2\n".as_slice(), Version::Two, b"".as_slice()),
        (b"grove 2".as_slice(), Version::One, b"grove 2".as_slice()),
        (
            b"grove 2 \n".as_slice(),
            Version::One,
            b"grove 2 \n".as_slice(),
        ),
        (
            b"grove 2\ngrove 2\n".as_slice(),
            Version::Two,
            b"grove 2\n".as_slice(),
        ),
    ] {
        let (told, rest) = split_version(text);
        assert!(rt; told == version);
        assert!(rt; rest == lines);
    }
    assert!(rt; read_line(Version::Two, b"grove 2") == Err(LineFault::Syntax));
    let mut out = Vec::new(rt.alloc());
    write_version(Version::One, &mut out)?;
    assert!(rt; out.is_empty());
    write_version(Version::Two, &mut out)?;
    assert!(rt; out.as_slice() == b"grove 2\n".as_slice());
    Ok(())
}

// The edit that a line spells, made from its spelling.
fn spelled_edit(version: Version, line: &[u8]) -> Result<Edit, LineFault> {
    Ok(read_spelled_line(version, line)?.edit())
}

#[test]
fn a_spelled_edit_is_the_one_that_is_read(rt: HostRuntime) {
    for line in [
        b"+1.2 0.0 root main 1.1 lam".as_slice(),
        b"-1.2 0.0 root main 1.1 num:7".as_slice(),
        b"+1.4 1.1 lam param 1.3 pvar:x".as_slice(),
        b"-1.6 1.1 lam body 1.5 var:x_1".as_slice(),
    ] {
        let edit = read_line(Version::One, line);
        assert!(rt; edit.is_ok());
        assert!(rt; spelled_edit(Version::One, line) == edit);
        assert!(rt; spelled_edit(Version::Two, line) == edit);
    }
}

#[test]
fn a_line_that_spells_no_edit_has_the_fault_that_is_read(rt: HostRuntime) {
    for (version, line, want) in [
        (
            Version::Two,
            b"+1.2 0.0 root main 1.1 word".as_slice(),
            LineFault::Syntax,
        ),
        (
            Version::One,
            b"+1.2 0.0 root main 1.1 let".as_slice(),
            LineFault::Syntax,
        ),
        (
            Version::Two,
            b"+0.2 0.0 root left 1.1 tnum".as_slice(),
            LineFault::BadVertex,
        ),
        (
            Version::Two,
            b"+1.2 0.0 root left 1.1 tnum".as_slice(),
            LineFault::NoPosition,
        ),
        (
            Version::Two,
            b"+1.4 1.1 num:7 left 1.3 num:8".as_slice(),
            LineFault::NoPosition,
        ),
        (
            Version::Two,
            b"+1.2 0.0 root main 1.1 tnum".as_slice(),
            LineFault::WrongSort,
        ),
    ] {
        assert!(rt; read_spelled_line(version, line).err() == Some(want));
        assert!(rt; read_line(version, line) == Err(want));
    }
}
