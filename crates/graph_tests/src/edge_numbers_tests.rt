use edge_lattice::State;
use edge_numbers::*;
use grove_edits::{Edge, Vertex};
use grove_names::Name;
use grove_sorts::{Ctor, Position};
use std::cmp::Ordering;
use std::process::Abort;
use std::test::Fail;

fn edge(counter: u64, child: u64) -> Edge {
    Edge {
        name: Name { author: 1, counter },
        source: Vertex::ROOT,
        position: Position::Main,
        target: Vertex {
            name: Name {
                author: 1,
                counter: child,
            },
            ctor: Ctor::Num(7),
        },
    }
}

fn enter(numbers: &mut EdgeNumbers, edge: &Edge) -> Result<usize, NoMemory> {
    let source = numbers.enter_vertex(&edge.source)?;
    let target = numbers.enter_vertex(&edge.target)?;
    numbers.enter(edge, source, target)
}

fn enter_both(numbers: &mut EdgeNumbers, first: &Edge, second: &Edge) -> Result<(), NoMemory> {
    enter(numbers, first)?;
    enter(numbers, second)?;
    Ok(())
}

fn edge_and_ends(numbers: &EdgeNumbers, number: usize) -> Option<(Edge, usize, usize)> {
    if number < numbers.edge_count() {
        return Some((
            numbers.edge(number),
            numbers.source(number),
            numbers.target(number),
        ));
    }
    None
}

fn order(numbers: &EdgeNumbers, a: usize, b: usize) -> Option<Ordering> {
    let count = numbers.edge_count();
    if a < count && b < count {
        return Some(numbers.cmp(a, b));
    }
    None
}

fn raise(numbers: &mut EdgeNumbers, number: usize) {
    if number < numbers.edge_count() {
        numbers.set_state(number, State::Live);
    }
}

fn check_numbers<R: Abort>(rt: &R, numbers: &mut EdgeNumbers) -> Result<(), Fail> {
    enter_both(numbers, &edge(2, 6), &edge(1, 5))?;
    assert!(rt; enter(numbers, &edge(2, 6))? == 0);
    assert!(rt; numbers.number(&edge(1, 5)) == Some(1));
    assert!(rt; numbers.number(&edge(1, 6)) == None);
    Ok(())
}

#[test]
fn an_edge_has_one_number(rt: HostRuntime) -> Result<(), Fail> {
    let mut numbers = EdgeNumbers::new(rt.alloc());
    check_numbers(&rt, &mut numbers)
}

fn check_ends<R: Abort>(rt: &R, numbers: &mut EdgeNumbers) -> Result<(), Fail> {
    enter_both(numbers, &edge(1, 5), &edge(2, 6))?;
    assert!(rt; numbers.vertex_count() == 3);
    assert!(rt; edge_and_ends(numbers, 1) == Some((edge(2, 6), 0, 2)));
    assert!(rt; numbers.vertex_number(&edge(2, 6).target) == Some(2));
    Ok(())
}

#[test]
fn ends_have_numbers(rt: HostRuntime) -> Result<(), Fail> {
    let mut numbers = EdgeNumbers::new(rt.alloc());
    check_ends(&rt, &mut numbers)
}

fn check_states<R: Abort>(rt: &R, numbers: &mut EdgeNumbers) -> Result<(), Fail> {
    enter_both(numbers, &edge(1, 5), &edge(2, 6))?;
    raise(numbers, 1);
    assert!(rt; numbers.state(&edge(2, 6)) == State::Live);
    assert!(rt; numbers.state(&edge(1, 5)) == State::Absent);
    Ok(())
}

#[test]
fn states_are_set_by_number(rt: HostRuntime) -> Result<(), Fail> {
    let mut numbers = EdgeNumbers::new(rt.alloc());
    check_states(&rt, &mut numbers)
}

fn check_order<R: Abort>(rt: &R, numbers: &mut EdgeNumbers) -> Result<(), Fail> {
    enter_both(numbers, &edge(1, 6), &edge(1, 5))?;
    assert!(rt; order(numbers, 0, 1) == Some(Ordering::Greater));
    assert!(rt; order(numbers, 1, 1) == Some(Ordering::Equal));
    Ok(())
}

#[test]
fn edges_with_one_name_have_an_order(rt: HostRuntime) -> Result<(), Fail> {
    let mut numbers = EdgeNumbers::new(rt.alloc());
    check_order(&rt, &mut numbers)
}
