ghost use Rattle.std.specs.Prelude.{◌≡◌, IfOk, IfErr, Some};
ghost use Rattle.grove_sorts.specs.Plain.{plain_ctor};
ghost use Rattle.grove_edits.specs.Edge.{edge_fault, edge_from, EdgeInRange, IsWellFormed};
ghost use Rattle.grove_edits.specs.SpelledEdge.{spelled_edge, spelled_vertex};

use crate::edge::{Edge, EdgeFault, check_spelled};
use crate::edit::{Edit, EditKind};
use crate::vertex::Vertex;
use grove_names::Name;
use grove_sorts::{Plain, Position, SpelledCtor};

/// A vertex as a text spells it.
#[derive(Clone, Copy, Debug)]
pub struct SpelledVertex<'t> {
    pub name: Name,
    pub ctor: SpelledCtor<'t>,
}

impl<'t> SpelledVertex<'t> {
    /// A vertex, its identifier lent from where it stands.
    #[inline(always)]
    pub fn of(vertex: &'t Vertex) -> SpelledVertex<'t>
        ensures { spelled_vertex result ≡ vertex.now }
    {
        SpelledVertex {
            name: vertex.name,
            ctor: SpelledCtor::of(&vertex.ctor),
        }
    }

    /// The vertex itself, in its whole width.
    pub fn vertex(&self) -> Vertex
        ensures { result ≡ spelled_vertex self.now }
    {
        Vertex {
            name: self.name,
            ctor: self.ctor.ctor(),
        }
    }
}

/// An edge as a text spells it. Not each is well formed: see `SpelledEdit::new`.
#[derive(Clone, Copy, Debug)]
pub struct SpelledEdge<'t> {
    pub name: Name,
    pub source: SpelledVertex<'t>,
    pub position: Position,
    pub target: SpelledVertex<'t>,
}

impl<'t> SpelledEdge<'t> {
    /// An edge, its identifiers lent from where they stand.
    #[inline(always)]
    pub fn of(edge: &'t Edge) -> SpelledEdge<'t>
        ensures { spelled_edge result ≡ edge.now }
    {
        SpelledEdge {
            name: edge.name,
            source: SpelledVertex::of(&edge.source),
            position: edge.position,
            target: SpelledVertex::of(&edge.target),
        }
    }
}

/// An edit as a text spells it: the insertion or the deletion of a well-formed edge, two thirds as wide as an `Edit`.
#[derive(Clone, Copy, Debug)]
pub struct SpelledEdit<'t> {
    name: Name,
    source: Name,
    branch: Plain,
    position: Position,
    kind: EditKind,
    target: SpelledVertex<'t>,
    ghost well_formed: { IsWellFormed (edge_from name source branch position (spelled_vertex target)) },
    ghost in_range: { EdgeInRange (edge_from name source branch position (spelled_vertex target)) },
}

impl<'t> SpelledEdit<'t> {
    ghost use Rattle.grove_edits.specs.Edit.{edit_edge, edit_kind};
    ghost use Rattle.grove_edits.specs.SpelledEdit.{spelled_edit};

    /// An edit of an edge, or the edge's first fault.
    #[inline(always)]
    pub fn new(kind: EditKind, edge: SpelledEdge<'t>) -> Result<SpelledEdit<'t>, EdgeFault>
        ensures edge { IfOk result (λ edit. edit_edge (spelled_edit edit) ≡ spelled_edge edge.entry) }
        ensures kind { IfOk result (λ edit. edit_kind (spelled_edit edit) ≡ kind) }
        ensures first_fault { IfErr result (λ fault. edge_fault (spelled_edge edge.entry) ≡ Some fault) }
        ensures in_range { EdgeInRange (spelled_edge edge.entry) }
    {
        let branch = check_spelled(&edge)?;
        Ok(SpelledEdit {
            name: edge.name,
            source: edge.source.name,
            branch,
            position: edge.position,
            kind,
            target: edge.target,
        })
    }

    /// An edit, the identifier of its target lent from where it stands.
    #[inline(always)]
    pub fn of(edit: &'t Edit) -> SpelledEdit<'t>
        ensures { spelled_edit result ≡ edit.now }
    {
        SpelledEdit {
            name: edit.name,
            source: edit.source,
            branch: edit.branch,
            position: edit.position,
            kind: edit.kind,
            target: SpelledVertex::of(&edit.target),
        }
    }

    /// The edit itself, in its whole width.
    pub fn edit(&self) -> Edit
        ensures { result ≡ spelled_edit self.now }
    {
        Edit {
            name: self.name,
            source: self.source,
            branch: self.branch,
            position: self.position,
            target: self.target.vertex(),
            kind: self.kind,
        }
    }

    /// The name of the edge.
    pub fn name(&self) -> Name
        ensures { result ≡ (edit_edge (spelled_edit self.now)).name }
    {
        self.name
    }

    /// The name of the vertex from which the edge leads.
    pub fn source_name(&self) -> Name
        ensures { result ≡ (edit_edge (spelled_edit self.now)).source.name }
    {
        self.source
    }

    /// The constructor of that vertex, which has the position.
    pub fn branch(&self) -> Plain
        ensures { plain_ctor result ≡ (edit_edge (spelled_edit self.now)).source.ctor }
    {
        self.branch
    }

    /// The position at which the edge stands.
    pub fn position(&self) -> Position
        ensures { result ≡ (edit_edge (spelled_edit self.now)).position }
    {
        self.position
    }

    /// The vertex to which the edge leads.
    pub fn target(&self) -> SpelledVertex<'t>
        ensures { spelled_vertex result ≡ (edit_edge (spelled_edit self.now)).target }
    {
        self.target
    }

    pub fn kind(&self) -> EditKind
        ensures { result ≡ edit_kind (spelled_edit self.now) }
    {
        self.kind
    }
}
