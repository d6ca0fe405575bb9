use grove_sorts::{Ctor, Ident};
use mark_step::{Demand, Mark, Mode};
use type_core::TypeId;

/// What a child gives to the vertex that it stands under.
#[derive(Clone, Copy, Debug)]
pub struct Given<'t> {
    /// Its type, unknown where it has none.
    pub typ: TypeId,
    /// Its name, where it is a pattern with one.
    pub name: Option<&'t Ident>,
}

/// What each position of a vertex gave, in the order of the table. An array would do, but that what its elements borrow is not followed.
#[derive(Clone, Copy, Debug)]
pub struct GivenRow<'t> {
    pub first: Given<'t>,
    pub second: Given<'t>,
    pub third: Given<'t>,
    pub fourth: Given<'t>,
    pub fifth: Given<'t>,
}

/// A vertex of which some positions are judged. What is wide stays in the tree, since open vertices are put on and taken off often.
#[derive(Clone, Copy, Debug)]
pub struct OpenVertex<'t> {
    pub ctor: &'t Ctor,
    /// What is demanded of it.
    pub demand: Demand,
    /// What each position gave, by its index in the row of the constructor; nothing from the next position on.
    pub given: GivenRow<'t>,
    /// The index of the position that comes next.
    pub next: usize,
}

/// What is open.
#[derive(Clone, Copy, Debug)]
pub enum Frame<'t> {
    Open(OpenVertex<'t>),
    /// A conflict: what is demanded of its children, and how many are left.
    Several(Demand, u64),
}

/// A vertex whose positions are all judged: what marking adds to its node, and what it gives.
#[derive(Clone, Copy, Debug)]
pub struct Closed<'t> {
    /// What is wanted of it, where it is an expression.
    pub mode: Option<Mode>,
    /// Its type, where it is an expression or a type.
    pub typ: Option<TypeId>,
    pub mark: Mark,
    pub given: Given<'t>,
}
