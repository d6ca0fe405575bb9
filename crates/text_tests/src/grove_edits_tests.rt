use grove_edits::*;
use grove_names::Name;
use grove_sorts::{Ctor, Position, Version, read_ident};
use std::test::Fail;

fn edge(counter: u64, position: Position, ctor: Ctor) -> Edge {
    Edge {
        name: Name { author: 1, counter },
        source: Vertex::ROOT,
        position,
        target: Vertex {
            name: Name {
                author: 1,
                counter: 1,
            },
            ctor,
        },
    }
}

#[test]
fn the_first_fault_is_told(rt: HostRuntime) {
    assert!(rt; check_edge(&edge(2, Position::Main, Ctor::Num(7))) == Ok(()));
    assert!(rt; check_edge(&edge(0, Position::Left, Ctor::TNum)) == Err(EdgeFault::BadVertex));
    assert!(rt; check_edge(&edge(2, Position::Left, Ctor::TNum)) == Err(EdgeFault::NoPosition));
    assert!(rt; check_edge(&edge(2, Position::Main, Ctor::TNum)) == Err(EdgeFault::WrongSort));
    assert!(rt;
        Edit::insert(edge(2, Position::Main, Ctor::Root)).err() == Some(EdgeFault::BadVertex)
    );
}

#[test]
fn a_deletion_wins(rt: HostRuntime) -> Result<(), Fail> {
    let first = edge(2, Position::Main, Ctor::Num(7));
    let second = edge(3, Position::Main, Ctor::LitTrue);
    let inserted = Edit::insert(first).ok().ok_or("a good edge")?;
    let deleted = Edit::delete(first).ok().ok_or("a good edge")?;
    let other = Edit::insert(second).ok().ok_or("a good edge")?;
    let mut edits = EditList::new(rt.alloc());
    edits.push(other)?;
    edits.push(deleted)?;
    edits.extend_from_slice(&[inserted])?;
    let canonical = edits.into_canonical();
    assert!(rt; canonical.len() == 2);
    assert!(rt; canonical.get(0) == Some(deleted));
    assert!(rt; canonical.get(1) == Some(other));
    assert!(rt; canonical.get(2) == None);
    Ok(())
}

#[test]
fn a_default_edge_is_no_edge_of_an_edit(rt: HostRuntime) {
    assert!(rt; check_edge(&Edge::default()) == Err(EdgeFault::BadVertex));
}

#[test]
fn a_command_keeps_its_bytes(rt: HostRuntime) -> Result<(), Fail> {
    let command = Command::Take {
        piece: 1,
        bytes: Bytes::of(Vec::from_array(rt.alloc(), [43, 49])?),
        edits: EditList::new(rt.alloc()),
    };
    match &command {
        Command::Act(_) => assert!(rt; false),
        Command::Take { bytes, .. } => assert!(rt; bytes.as_slice() == [43, 49].as_slice()),
    }
    Ok(())
}

// Whether an edit of an edge to this constructor is itself again, once it is made from its spelling.
fn is_spelled_whole(kind: EditKind, ctor: Ctor) -> Result<bool, EdgeFault> {
    let edit = Edit::new(kind, edge(2, Position::Main, ctor))?;
    Ok(SpelledEdit::of(&edit).edit() == edit)
}

#[test]
fn an_edit_is_made_again_from_its_spelling(rt: HostRuntime) -> Result<(), Fail> {
    let ident = read_ident(
        Version::Two,
        b"a2345678901234567890123456789_32_2345678901234567890123456789_64",
    )
    .ok()
    .ok_or("an identifier")?;
    for ctor in [Ctor::Num(7), Ctor::Lam, Ctor::Var(ident)] {
        assert!(rt; is_spelled_whole(EditKind::Insert, ctor) == Ok(true));
        assert!(rt; is_spelled_whole(EditKind::Delete, ctor) == Ok(true));
    }
    Ok(())
}

// An edge as a text spells it.
fn spelled_edge(edge: &Edge) -> SpelledEdge<'_> {
    SpelledEdge {
        name: edge.name,
        source: SpelledVertex::of(&edge.source),
        position: edge.position,
        target: SpelledVertex::of(&edge.target),
    }
}

// The edit of an edge, made from its spelling, or the first fault.
fn insertion_as_spelled(edge: &Edge) -> Result<Edit, EdgeFault> {
    Ok(SpelledEdit::new(EditKind::Insert, spelled_edge(edge))?.edit())
}

#[test]
fn the_first_fault_of_a_spelled_edge_is_told(rt: HostRuntime) {
    for edge in [
        edge(2, Position::Main, Ctor::Num(7)),
        edge(0, Position::Left, Ctor::TNum),
        edge(2, Position::Left, Ctor::TNum),
        edge(2, Position::Main, Ctor::TNum),
        edge(2, Position::Main, Ctor::Root),
    ] {
        assert!(rt; insertion_as_spelled(&edge) == Edit::insert(edge));
    }
}
