ghost use Rattle.std.specs.Prelude.{◌≡◌, [], IfOk, IfErr, IfSome, IfNone, OnOk, None, Some};
ghost use Rattle.grove_sorts.specs.Ctor.{positions};
ghost use Rattle.grove_sorts.specs.Plain.{plain_ctor};
ghost use Rattle.grove_sorts.specs.Spelled.{spelled_ctor};
ghost use Rattle.grove_edits.specs.Edge.{EdgeInRange, edge_fault};
ghost use Rattle.grove_edits.specs.Vertex.{is_vertex, VertexInRange};
ghost use Rattle.grove_edits.specs.SpelledEdge.{spelled_edge, spelled_vertex};

use crate::spelled::{SpelledEdge, SpelledVertex};
use crate::vertex::Vertex;
use grove_names::Name;
use grove_sorts::{Plain, Position, SpelledCtor};

/// An edge is its whole record, ordered by its fields in turn. Not each is well formed: see `check_edge`.
#[derive(Clone, Copy, Debug, PartialEq, Eq, PartialOrd, Ord, Hash)]
pub struct Edge {
    pub name: Name,
    pub source: Vertex,
    pub position: Position,
    pub target: Vertex,
}

impl Default for Edge {
    /// The root as its own child, under no author's name. It is not well formed, so no edit has it: it fills room that is not used.
    fn default() -> Edge {
        Edge {
            name: Vertex::ROOT.name,
            source: Vertex::ROOT,
            position: Position::Main,
            target: Vertex::ROOT,
        }
    }
}

/// Why an edge is not well formed.
#[derive(Clone, Copy, Debug, PartialEq, Eq)]
pub enum EdgeFault {
    /// The edge has no author's name, or one of its ends is not well formed.
    BadVertex,
    /// The source's constructor has no such position.
    NoPosition,
    /// The position wants children of another sort.
    WrongSort,
}

/// The first fault that applies, in the order of `EdgeFault`.
#[inline(always)]
pub fn check_edge(edge: &Edge) -> Result<(), EdgeFault>
    ensures well_formed { OnOk result (edge_fault edge.now ≡ None) }
    ensures first_fault { IfErr result (λ fault. edge_fault edge.now ≡ Some fault) }
    ensures in_range { EdgeInRange edge.now }
{
    check_spelled(&SpelledEdge::of(edge))?;
    Ok(())
}

#[inline(always)]
fn is_well_formed(vertex: &SpelledVertex) -> bool
    ensures well_formed { result ≡ is_vertex (spelled_vertex vertex.now) }
    ensures in_range { VertexInRange (spelled_vertex vertex.now) }
{
    let Name { author, counter } = vertex.name;
    match vertex.ctor {
        SpelledCtor::Plain(Plain::Root) => author == 0 && counter == 0,
        SpelledCtor::Num(_literal) => 0 < author && 0 < counter,
        SpelledCtor::Plain(_) | SpelledCtor::Var(_) | SpelledCtor::PVar(_) => {
            0 < author && 0 < counter
        }
    }
}

// The plain constructor that one is, or None where it carries something, and so has no positions.
#[inline(always)]
fn branch_of(ctor: SpelledCtor) -> Option<Plain>
    ensures branch { IfSome result (λ branch. plain_ctor branch ≡ spelled_ctor ctor.entry) }
    ensures none { IfNone result (positions (spelled_ctor ctor.entry) ≡ []) }
{
    match ctor {
        SpelledCtor::Plain(plain) => Some(plain),
        SpelledCtor::Num(_) | SpelledCtor::Var(_) | SpelledCtor::PVar(_) => None,
    }
}

/// The constructor of the source of a well-formed edge, or the first fault that applies, in the order of `EdgeFault`.
#[inline(always)]
pub(crate) fn check_spelled(edge: &SpelledEdge) -> Result<Plain, EdgeFault>
    ensures well_formed { IfOk result (λ branch. edge_fault (spelled_edge edge.now) ≡ None) }
    ensures branch { IfOk result (λ branch. plain_ctor branch ≡ (spelled_edge edge.now).source.ctor) }
    ensures first_fault { IfErr result (λ fault. edge_fault (spelled_edge edge.now) ≡ Some fault) }
    ensures in_range { EdgeInRange (spelled_edge edge.now) }
{
    let Name { author, counter } = edge.name;
    let is_named = 0 < author && 0 < counter;
    let is_source_good = is_well_formed(&edge.source);
    let is_target_good = is_well_formed(&edge.target);
    if !(is_named && is_source_good && is_target_good) {
        return Err(EdgeFault::BadVertex);
    }
    let branch = branch_of(edge.source.ctor).ok_or(EdgeFault::NoPosition)?;
    match branch.position_sort(edge.position) {
        None => Err(EdgeFault::NoPosition),
        Some(sort) => {
            if sort == edge.target.ctor.sort() {
                Ok(branch)
            } else {
                Err(EdgeFault::WrongSort)
            }
        }
    }
}
