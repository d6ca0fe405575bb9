ghost use Rattle.std.specs.Prelude.{◌≡◌, IfOk, IfErr, Some};
ghost use Rattle.grove_edits.specs.Edge.{IsWellFormed, EdgeInRange, edge_fault, edge_from};

use crate::edge::{Edge, EdgeFault, check_edge};
use crate::vertex::Vertex;
use grove_names::Name;
use grove_sorts::{Plain, Position};

/// What an edit does to its edge.
#[derive(Clone, Copy, Debug, PartialEq, Eq, PartialOrd, Ord, Hash)]
pub enum EditKind {
    Insert,
    Delete,
}

/// The insertion or the deletion of a well-formed edge, ordered by its edge and then its kind.
#[derive(Clone, Copy, Debug, PartialEq, Eq, PartialOrd, Ord)]
pub struct Edit {
    // The parts of the edge. The source of a well-formed edge has a position, so its constructor is a byte here: an edit is two thirds as
    // wide as its edge.
    pub(crate) name: Name,
    pub(crate) source: Name,
    pub(crate) branch: Plain,
    pub(crate) position: Position,
    pub(crate) target: Vertex,
    pub(crate) kind: EditKind,
    ghost well_formed: { IsWellFormed (edge_from name source branch position target) },
    ghost in_range: { EdgeInRange (edge_from name source branch position target) },
}

impl Edit {
    ghost use Rattle.grove_edits.specs.Edit.{edit_edge, edit_kind};

    /// An edit of an edge, or the edge's first fault.
    #[inline(always)]
    pub fn new(kind: EditKind, edge: Edge) -> Result<Edit, EdgeFault>
        ensures edge { IfOk result (λ edit. edit_edge edit ≡ edge) }
        ensures kind { IfOk result (λ edit. edit_kind edit ≡ kind) }
        ensures first_fault { IfErr result (λ fault. edge_fault edge ≡ Some fault) }
    {
        check_edge(&edge)?;
        let branch = Plain::of(&edge.source.ctor).ok_or(EdgeFault::NoPosition)?;
        Ok(Edit {
            name: edge.name,
            source: edge.source.name,
            branch,
            position: edge.position,
            target: edge.target,
            kind,
        })
    }

    /// The insertion of an edge, or its first fault.
    pub fn insert(edge: Edge) -> Result<Edit, EdgeFault>
        ensures edge { IfOk result (λ edit. edit_edge edit ≡ edge) }
        ensures kind { IfOk result (λ edit. edit_kind edit ≡ EditKind.Insert) }
        ensures first_fault { IfErr result (λ fault. edge_fault edge ≡ Some fault) }
    {
        Edit::new(EditKind::Insert, edge)
    }

    /// The deletion of an edge, or its first fault.
    pub fn delete(edge: Edge) -> Result<Edit, EdgeFault>
        ensures edge { IfOk result (λ edit. edit_edge edit ≡ edge) }
        ensures kind { IfOk result (λ edit. edit_kind edit ≡ EditKind.Delete) }
        ensures first_fault { IfErr result (λ fault. edge_fault edge ≡ Some fault) }
    {
        Edit::new(EditKind::Delete, edge)
    }

    /// The edge, in its whole width: where a part of it does, take that.
    pub fn edge(&self) -> Edge
        ensures { result ≡ edit_edge self.now }
    {
        Edge {
            name: self.name,
            source: self.source(),
            position: self.position,
            target: self.target,
        }
    }

    /// The name of the edge.
    pub fn name(&self) -> Name
        ensures { result ≡ (edit_edge self.now).name }
    {
        self.name
    }

    /// The vertex from which the edge leads.
    pub fn source(&self) -> Vertex
        ensures { result ≡ (edit_edge self.now).source }
    {
        Vertex {
            name: self.source,
            ctor: self.branch.ctor(),
        }
    }

    /// The position at which the edge stands.
    pub fn position(&self) -> Position
        ensures { result ≡ (edit_edge self.now).position }
    {
        self.position
    }

    /// The vertex to which the edge leads, lent.
    pub fn target(&self) -> &Vertex
        ensures { result.now ≡ (edit_edge self.now).target }
    {
        &self.target
    }

    pub fn kind(&self) -> EditKind
        ensures { result ≡ edit_kind self.now }
    {
        self.kind
    }
}
