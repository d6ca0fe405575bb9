ghost use Rattle.std.specs.Prelude.{◌≡◌, Some, None, IsSome};
ghost use Rattle.std.specs.List.{slice_index_or};
ghost use Rattle.mark_step.specs.Expression.{has_mark};

use ctx_table::CtxId;
use grove_sorts::{Ctor, Ident, WIDEST};
use type_core::TypeId;

/// What is wanted of an expression.
#[derive(Clone, Copy, Debug, PartialEq, Eq)]
pub enum Mode {
    /// To synthesise a type.
    Syn,
    /// To be analysed against this type.
    Ana(TypeId),
}

/// What is wrong with an expression.
#[derive(Clone, Copy, Debug, PartialEq, Eq)]
pub enum Mark {
    /// Nothing.
    None,
    /// A variable that nothing binds.
    Free,
    /// An application of what is no function.
    NotArrow,
    /// A part of what is no pair.
    NotProduct,
    /// A conditional whose branches have inconsistent types.
    Branches,
    /// A function against a type of no functions.
    LamAgainst,
    /// A function that ascribes a type to its parameter which is inconsistent with the one wanted.
    Ascription,
    /// A pair against a type of no pairs.
    PairAgainst,
    /// An expression whose type is inconsistent with the one wanted.
    Inconsistent,
    /// A case on what is no sum.
    NotSum,
    /// An injection against a type of no sums.
    InjAgainst,
}

impl Mark {
    /// Whether something is wrong.
    pub fn is_some(self) -> bool
        ensures { result ≡ has_mark self }
    {
        !matches!(self, Mark::None)
    }
}

/// What a function binds, a `let`, or a case at one of its bodies. Other constructors bind nothing, and do not use it.
#[derive(Clone, Copy, Debug)]
pub struct Binder<'t> {
    /// The name at its param position, where one sole pattern stands there.
    pub name: Option<&'t Ident>,
    /// The type of the type position of a function. What others bind has the type of a child, and this is not used.
    pub typ: TypeId,
}

/// A node as its rule sees it. What is wide is borrowed, so that a view is made and passed on at little cost.
#[derive(Clone, Copy, Debug)]
pub struct NodeView<'t> {
    pub ctor: &'t Ctor,
    pub ctx: CtxId,
    pub mode: Mode,
    /// What it binds, a case in its left body.
    pub binder: Binder<'t>,
    /// What a case binds in its right body.
    pub second: Binder<'t>,
    /// The types of its children that are marked already, by the index of their position. Only those of expressions are read.
    pub done: [Option<TypeId>; WIDEST],
}

/// How a child is judged.
#[derive(Clone, Copy, Debug, PartialEq, Eq)]
pub struct Demand {
    pub ctx: CtxId,
    pub mode: Mode,
}

/// The type that a node shows, and its mark.
#[derive(Clone, Copy, Debug, PartialEq, Eq)]
pub struct Settled {
    pub typ: TypeId,
    pub mark: Mark,
}

impl NodeView<'_> {
    // The type of the expression at the position with this index.
    pub(crate) fn child_type(&self, index: usize) -> TypeId
        requires { IsSome (slice_index_or self.now.done index None) }
        ensures { slice_index_or self.now.done index None ≡ Some result }
    {
        match self.done[index] {
            Some(typ) => typ,
            None => unreachable!(),
        }
    }
}
