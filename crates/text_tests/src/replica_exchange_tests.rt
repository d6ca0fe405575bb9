ghost use Rattle.std.specs.Prelude.{◌≡◌};

use edit_text::{LineFault, read_line};
use grove_edits::EditList;
use grove_sorts::Version;
use replica_exchange::*;
use session_script::SendLine;
use std::alloc::Global;
use std::test::Fail;

const LINES: [&[u8]; 3] = [
    b"-2.2 3.1 plus left 2.1 num:2",
    b"+3.2 0.0 root main 3.1 plus",
    b"+3.4 3.1 plus right 3.3 true",
];

fn three_edits(alloc: Global) -> Result<EditList, Fail> {
    let mut edits = EditList::new(alloc);
    for line in LINES {
        let Ok(edit) = read_line(Version::Two, line) else {
            return Err(Fail::from("a good line"));
        };
        edits.push(edit)?;
    }
    Ok(edits)
}

// All edits in reverse and twice.
fn reversed_twice(cut: u64) -> SendLine
    ensures { result.cut ≡ cut }
{
    SendLine {
        from: 0,
        to: 1,
        skip: 0,
        take: 9,
        reverse: true,
        twice: true,
        cut,
    }
}

fn is_piece(pieces: &PieceList, index: usize, want: &[u8]) -> bool {
    match pieces.get(index) {
        Some(piece) => piece.as_slice() == want,
        None => false,
    }
}

#[test]
fn a_text_is_cut_after_every_so_many_bytes(rt: HostRuntime) -> Result<(), Fail> {
    let list = three_edits(rt.alloc())?;
    let pieces = packets(rt.alloc(), &list, &reversed_twice(50))?;
    assert!(rt; pieces.len() == 4);
    assert!(rt;
        is_piece(
            &pieces,
            0,
            b"+3.4 3.1 plus right 3.3 true\n+3.2 0.0 root main 3.",
        )
    );
    assert!(rt; is_piece(&pieces, 3, b"1 plus left 2.1 num:2\n"));
    Ok(())
}

// How many bytes are sent in one piece.
fn sent_length(alloc: Global, list: &EditList, skip: u64, take: u64) -> Result<usize, Fail> {
    let line = SendLine {
        from: 0,
        to: 0,
        skip,
        take,
        reverse: false,
        twice: false,
        cut: 65_536,
    };
    let pieces = packets(alloc, list, &line)?;
    match pieces.get(0) {
        Some(piece) => Ok(piece.as_slice().len()),
        None => Ok(0),
    }
}

#[test]
fn edits_are_left_out_and_taken(rt: HostRuntime) -> Result<(), Fail> {
    let list = three_edits(rt.alloc())?;
    for (skip, take, length) in [(0, 1, 29), (1, 1, 28), (2, 9, 29), (3, 9, 0), (0, 0, 0)] {
        assert!(rt; sent_length(rt.alloc(), &list, skip, take)? == length);
    }
    Ok(())
}

// The edits of all pieces.
fn taken_of(alloc: Global, pieces: &PieceList) -> Result<EditList, Fail> {
    let mut taker = Taker::new(alloc);
    let mut taken = EditList::new(alloc);
    for index in 0..pieces.len() {
        let piece = pieces.get(index).ok_or("a piece")?;
        let Ok(edits) = taker.take(piece.as_slice()) else {
            return Err(Fail::from("its edits"));
        };
        taken.extend_from_slice(edits.as_slice())?;
    }
    Ok(taken)
}

// Whether the edits are three in reverse, again and again.
fn are_reversed(list: &EditList, taken: &EditList) -> bool {
    for index in 0..taken.len() {
        if list.get(2 - index % 3) != taken.get(index) {
            return false;
        }
    }
    true
}

#[test]
fn pieces_are_taken_whatever_their_length(rt: HostRuntime) -> Result<(), Fail> {
    let list = three_edits(rt.alloc())?;
    for cut in 1..180u64 {
        let pieces = packets(rt.alloc(), &list, &reversed_twice(cut))?;
        let taken = taken_of(rt.alloc(), &pieces)?;
        assert!(rt; taken.len() == 6);
        assert!(rt; are_reversed(&list, &taken));
    }
    Ok(())
}

#[test]
fn a_bad_line_is_told_again(rt: HostRuntime) {
    let mut taker = Taker::new(rt.alloc());
    assert!(rt;
        taker
            .take(b"+1.2 0.0 root main 1.1 let\n+1.3 0.0 ro")
            .is_ok()
    );
    for piece in [
        b"ot left 1.1 ap\n".as_slice(),
        b"+1.2 0.0 root main 1.1 let\n".as_slice(),
    ] {
        assert!(rt;
            taker.take(piece).err()
                == Some(TakeFault::Malformed {
                    line: 2,
                    fault: LineFault::NoPosition,
                })
        );
    }
}
