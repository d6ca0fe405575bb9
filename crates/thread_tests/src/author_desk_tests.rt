use crate::counter::Counter;
use author_desk::{Cuts, run_lines};
use edge_board::Board;
use edge_lattice::State;
use grove_edits::{Action, Actor, Command, Edge, Edit, EditList, Place, Vertex};
use grove_io::{Gate, OpenGate};
use grove_names::Name;
use grove_sorts::{Ctor, Position};
use shared_replica::{Journal, Shared};
use std::alloc::Global;
use std::sync::Wait;
use std::sync::atomic::{AtomicU64, Ordering};
use std::test::Fail;

fn name(author: u32, counter: u64) -> Name {
    Name { author, counter }
}

// The lines of an author who cuts both children of `3.1 plus` and makes another one at its left.
fn lines() -> [Action; 3] {
    let place = Place {
        name: name(3, 1),
        position: Position::Left,
    };
    [
        Action::Cut { edge: name(3, 4) },
        Action::Cut { edge: name(3, 6) },
        Action::Construct {
            place,
            ctor: Ctor::Num(1),
        },
    ]
}

fn vertex(counter: u64, ctor: Ctor) -> Vertex {
    Vertex {
        name: name(3, counter),
        ctor,
    }
}

// The edits of a graph in which the numbers 7 and 8 are added.
fn opening(alloc: Global) -> Result<EditList, Fail> {
    let plus = vertex(1, Ctor::Plus);
    let mut edits = EditList::new(alloc);
    for (counter, source, position, target) in [
        (2, Vertex::ROOT, Position::Main, plus),
        (4, plus, Position::Left, vertex(3, Ctor::Num(7))),
        (6, plus, Position::Right, vertex(5, Ctor::Num(8))),
    ] {
        edits.push(Edit::insert(Edge {
            name: name(3, counter),
            source,
            position,
            target,
        })?)?;
    }
    Ok(edits)
}

fn is_line(command: &Command, line: &Action) -> bool {
    match command {
        Command::Act(action) => action == line,
        Command::Take { .. } => false,
    }
}

// Whether the journal has the lines as author 1's, each once and in order.
fn has_lines(journal: &Journal<Counter>, lines: &[Action]) -> bool {
    for (index, line) in lines.iter().enumerate() {
        let Some(entry) = journal.get(index) else {
            return false;
        };
        if entry.actor != Actor::Author(1) || !is_line(&entry.command, line) {
            return false;
        }
    }
    journal.len() == lines.len()
}

// The journal that an author's lines leave, and the states of the edges of the graph, which opened with these edits.
fn left_by<R: Wait, G: Gate>(
    rt: &R,
    alloc: Global,
    opening: EditList,
    lines: &[Action],
    gate: &G,
) -> Option<(Journal<Counter>, Vec<State>)> {
    let opening = opening.into_canonical();
    if opening.is_empty() {
        return None;
    }
    let states = vec![in alloc; State::Live; opening.len()].ok()?;
    let (board, seat) = Board::new(alloc, states.as_slice(), 1).ok()?;
    let calls = lines.len() as u64;
    let (shared, mut host) = Shared::new(alloc, Counter { steps: 0 }, calls, 2).ok()?;
    let mut pass = shared.split(&mut host, Actor::Author(1), calls);
    let mut cuts = Cuts::On {
        opening: &opening,
        board: &board,
        seat,
    };
    run_lines(rt, alloc, &shared, &mut pass, &mut cuts, 1, 1, lines, gate).ok()?;
    shared.join(&mut host, pass);
    let (_counter, journal) = shared.close(host);
    let seat = cuts.into_seat()?;
    Some((journal, board.close(seat)))
}

/// Is ready at each third ask.
#[derive(Drop)]
struct ThirdAsk {
    asks: AtomicU64,
}

impl Gate for ThirdAsk {
    fn ready(&self, _author: u32, _call: u64) -> bool {
        self.asks.fetch_add(1, Ordering::SeqCst) % 3 == 2
    }
}

#[test]
fn cuts_are_raised_and_entered_with_the_next_line(rt: HostRuntime) -> Result<(), Fail> {
    let gate = ThirdAsk {
        asks: AtomicU64::new(0),
    };
    let Some((journal, states)) = left_by(&rt, rt.alloc(), opening(rt.alloc())?, &lines(), &gate)
    else {
        panic!(rt; "no memory")
    };
    assert!(rt; has_lines(&journal, &lines()));
    assert!(rt; states.as_slice() == [State::Live, State::Deleted, State::Deleted].as_slice());
    assert!(rt; gate.asks.load(Ordering::SeqCst) == 9);
    Ok(())
}

#[test]
fn cuts_at_the_end_are_entered(rt: HostRuntime) -> Result<(), Fail> {
    let Some((journal, states)) = left_by(
        &rt,
        rt.alloc(),
        opening(rt.alloc())?,
        &lines()[..1],
        &OpenGate,
    ) else {
        panic!(rt; "no memory")
    };
    assert!(rt; has_lines(&journal, &lines()[..1]));
    assert!(rt; states.as_slice() == [State::Live, State::Deleted, State::Live].as_slice());
    Ok(())
}

#[test]
fn each_line_is_a_call_where_no_edge_was_open(rt: HostRuntime) -> Result<(), Fail> {
    let Ok((shared, mut host)) = Shared::new(rt.alloc(), Counter { steps: 0 }, 3, 2) else {
        panic!(rt; "no memory")
    };
    let mut pass = shared.split(&mut host, Actor::Author(1), 3);
    let mut cuts = Cuts::Empty;
    run_lines(
        &rt,
        rt.alloc(),
        &shared,
        &mut pass,
        &mut cuts,
        1,
        1,
        &lines(),
        &OpenGate,
    )?;
    shared.join(&mut host, pass);
    let (_counter, journal) = shared.close(host);
    assert!(rt; has_lines(&journal, &lines()));
    Ok(())
}
