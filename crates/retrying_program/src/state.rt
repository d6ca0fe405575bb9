ghost use Rattle.mark_incremental.specs.Reading.{AreRecordsOf};

use crate::fault::Fault;
use grove_edits::{Edit, Vertex};
use grove_printer::print_tree;
use grove_terms::LentNode;
use mark_incremental::Marks;
use marking::{Added, MarkedTree};
use replica_core::Replica;
use std::alloc::{AllocFailed, Global};

/// The vertices of some edits, each once, in the order in which they come.
pub(crate) fn vertices_of(alloc: Global, edits: &[Edit]) -> Result<Vec<Vertex>, Fault> {
    let mut vertices = Vec::new(alloc);
    for edit in edits {
        let edge = edit.edge();
        push_new(&mut vertices, edge.source)?;
        push_new(&mut vertices, edge.target)?;
    }
    Ok(vertices)
}

fn push_new(vertices: &mut Vec<Vertex>, vertex: Vertex) -> Result<(), AllocFailed<Vertex>> {
    if vertices.contains(&vertex) {
        Ok(())
    } else {
        vertices.push(vertex)
    }
}

/// The canonical text of a replica, and behind it what it keeps of each of these vertices.
pub(crate) fn state_text(
    alloc: Global,
    replica: &Replica,
    vertices: &[Vertex],
) -> Result<Vec<u8>, Fault> {
    let mut text = Vec::new(alloc);
    replica.canonical(alloc, &mut text)?;
    for vertex in vertices {
        append_kept(alloc, replica.marks(), vertex, &mut text)?;
    }
    Ok(text)
}

// Appends what is kept of a vertex, as the line that it has where it heads a tree, and nothing where nothing is kept of it.
fn append_kept(
    alloc: Global,
    marks: &Marks,
    vertex: &Vertex,
    out: &mut Vec<u8>,
) -> Result<(), Fault>
    requires { AreRecordsOf marks.now.types marks.now.contexts marks.now.records }
{
    let Some(record) = marks.kept(vertex) else {
        return Ok(());
    };
    let nodes = [LentNode::head(vertex)];
    let mut added = Vec::new(alloc);
    added.push(Added {
        mode: record.mode,
        typ: record.typ,
        mark: record.mark,
    })?;
    print_tree(&MarkedTree::new(&nodes, added), marks.types(), out)?;
    Ok(())
}
