ghost use Rattle.std.specs.Prelude.{◌<◌};

use graph_joins::graph_of;
use grove_edits::{Edge, Edit, EditKind, Vertex};
use grove_names::Name;
use grove_sorts::{Ctor, Position};
use grove_undo::{UndoFault, change_of, undo};
use seeded_hash::HashSeed;
use session_script::{Session, read_session};
use std::alloc::Global;
use std::process::Abort;
use std::test::Fail;
use undo_answers::{is_fit, undo_text};

// An author wraps a literal that another one loaded.
const WRAPPED: &[u8] = b"session
replica a
author 1 a
author 2 a
load a +2.2 0.0 root main 2.1 num:7
block
1 wrap 0.0 main plus
end
";

const UNDONE: &[u8] = b"undone 3
none 2
0 - - 0.0 root top - -
1 main 1.4 2.1 num:7 syn num -
0 - - 1.1 plus syn num -
1 left - - hole ana:num ? -
1 right - - hole ana:num ? -
multi 0
cycle 0
";

// And then the other one takes the literal away.
const TOUCHED: &[u8] = b"session
replica a
author 1 a
author 2 a
load a +2.2 0.0 root main 2.1 num:7
block
1 wrap 0.0 main plus
2 delete 1.1 left
end
";

const REFUSED: &[u8] = b"refused 1 touched 1.3
none 2
0 - - 0.0 root top - -
1 main 1.2 1.1 plus syn num -
2 left - - hole ana:num ? -
2 right - - hole ana:num ? -
0 - - 2.1 num:7 syn num -
multi 0
cycle 0
";

fn session_of(alloc: Global, text: &[u8]) -> Result<Session, Fail> {
    match read_session(alloc, text) {
        Ok(session) => Ok(session),
        Err(_fault) => Err(Fail::from("a session")),
    }
}

fn undone(alloc: Global, text: &[u8], author: u32) -> Result<Vec<u8>, Fail>
    requires { 0 < author }
{
    match read_session(alloc, text) {
        Ok(session) if is_fit(&session) => {
            Ok(undo_text(alloc, HashSeed::FIXED, &session, author)?)
        }
        _ => Err(Fail::from("a session at one replica")),
    }
}

#[test]
fn a_wrap_is_undone(rt: HostRuntime) -> Result<(), Fail> {
    let text = undone(rt.alloc(), WRAPPED, 1)?;
    assert!(rt; text.as_slice() == UNDONE);
    Ok(())
}

#[test]
fn a_touched_place_is_told(rt: HostRuntime) -> Result<(), Fail> {
    let text = undone(rt.alloc(), TOUCHED, 1)?;
    assert!(rt; text.as_slice() == REFUSED);
    Ok(())
}

#[test]
fn an_author_without_actions_has_nothing_to_undo(rt: HostRuntime) -> Result<(), Fail> {
    let text = undone(rt.alloc(), TOUCHED, 3)?;
    assert!(rt; text.starts_with(b"nothing\nnone 2\n"));
    Ok(())
}

#[test]
fn two_replicas_are_unfit(rt: HostRuntime) -> Result<(), Fail> {
    let session = session_of(rt.alloc(), b"session\nreplica a\nreplica b\n")?;
    assert!(rt; !is_fit(&session));
    Ok(())
}

fn edit(kind: EditKind, edge: Edge) -> Result<Edit, Fail> {
    match Edit::new(kind, edge) {
        Ok(edit) => Ok(edit),
        Err(_fault) => Err(Fail::from("an edit")),
    }
}

fn edge(counter: u64) -> Edge {
    Edge {
        name: Name { author: 1, counter },
        source: Vertex::ROOT,
        position: Position::Main,
        target: Vertex {
            name: Name {
                author: 2,
                counter: 1,
            },
            ctor: Ctor::Num(7),
        },
    }
}

// The edge with this counter was deleted, and then one with the last counter was inserted.
fn expect_names_spent(
    rt: &impl Abort,
    alloc: Global,
    before: &[Edit],
    edits: &[Edit],
    now: &[Edit],
) -> Result<(), Fail> {
    let change = change_of(alloc, HashSeed::FIXED, before, edits)?;
    let graph = graph_of(alloc, HashSeed::FIXED, now)?;
    let refused = undo(alloc, &graph, 1, &change).err();
    let greatest = u64::MAX;
    assert!(rt; refused == Some(UndoFault::NamesSpent { greatest }));
    Ok(())
}

// An author who gave the last counter has no name for an edge that comes back.
#[test]
fn spent_names_are_told(rt: HostRuntime) -> Result<(), Fail> {
    let inserts = edit(EditKind::Insert, edge(2))?;
    let deletes = edit(EditKind::Delete, edge(2))?;
    let mut last = edge(u64::MAX);
    last.target.ctor = Ctor::Num(8);
    let spends = edit(EditKind::Delete, last)?;
    expect_names_spent(
        &rt,
        rt.alloc(),
        &[inserts],
        &[deletes],
        &[inserts, deletes, spends],
    )
}
