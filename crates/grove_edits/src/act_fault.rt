use crate::action::Place;
use crate::edge::Edge;
use crate::vertex::Vertex;
use grove_names::Name;
use grove_sorts::{Ctor, Sort};

/// Why an action is refused. Of the faults that apply, the first in this order is told.
#[derive(Clone, Copy, Debug, PartialEq, Eq)]
pub enum ActFault {
    /// No vertex has the name.
    NoVertex { name: Name },
    /// Two or more vertices have the name. These are the least two.
    AmbiguousVertex { first: Vertex, second: Vertex },
    /// The vertex has no such position.
    NoPosition { vertex: Vertex },
    /// The position wants children of another sort than the one found.
    WrongSort { wanted: Sort, found: Sort },
    /// The edge stands at the place.
    Occupied { edge: Edge },
    /// No edge stands at the place.
    Empty { place: Place },
    /// The constructor has no position for what stands at the place.
    CannotWrap { ctor: Ctor },
    /// No edge has the name.
    NoEdge { name: Name },
    /// Two or more edges are meant. These are the first two.
    AmbiguousEdge { first: Edge, second: Edge },
    /// The vertex would come to stand below itself.
    IntoItself { vertex: Vertex },
    /// The vertex has a live parent edge. This is the first.
    NotLoose { edge: Edge },
    /// The author's counters do not suffice for the new names. This is the greatest that was given.
    NamesSpent { greatest: u64 },
}
