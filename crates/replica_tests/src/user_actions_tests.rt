use edit_text::read_line;
use grove_edits::Edit;
use grove_sorts::Version;
use live_graph::LiveGraph;
use std::alloc::Global;
use std::test::Fail;
use user_actions::*;

fn raise(graph: &mut LiveGraph, edit: &Edit) -> Result<(), NoMemory> {
    let number = graph.make_room(&edit.edge())?;
    graph.raise_at(number, edit.kind());
    Ok(())
}

// Whether the edges of two lines were there when the first was taken, and the second was not yet.
fn opened_later(
    alloc: Global,
    graph: &mut LiveGraph,
    line: &str,
    later: &str,
) -> Result<(bool, bool), Fail> {
    let first = read_line(Version::One, line.as_bytes())?;
    let second = read_line(Version::One, later.as_bytes())?;
    raise(graph, &first)?;
    let opening = OpeningFlags::of(alloc, graph)?;
    raise(graph, &second)?;
    Ok((
        opening.was_open(graph, &first.edge()),
        opening.was_open(graph, &second.edge()),
    ))
}

fn opened(alloc: Global, line: &str, later: &str) -> Result<(bool, bool), Fail> {
    let mut graph = LiveGraph::new(alloc);
    opened_later(alloc, &mut graph, line, later)
}

#[test]
fn flags_keep_the_edges_of_their_time(rt: HostRuntime) -> Result<(), Fail> {
    let deletion = "-1.2 0.0 root main 1.1 num:7";
    let insertion = "+2.2 0.0 root main 2.1 true";
    let opened = opened(rt.alloc(), deletion, insertion)?;
    assert!(rt; opened == (true, false));
    Ok(())
}
