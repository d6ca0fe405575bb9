use ctx_table::CtxId;
use mark_step::{Mark, Mode};
use type_core::TypeId;

/// What marking says of a vertex, by the numbers of the tables of contexts and of types.
#[derive(Clone, Copy, Debug, PartialEq, Eq)]
pub struct Record {
    /// The context in which it is judged, where it is an expression, and else the empty one.
    pub ctx: CtxId,
    /// What is wanted of it, where it is an expression.
    pub mode: Option<Mode>,
    /// Its type, where it is an expression or a type.
    pub typ: Option<TypeId>,
    pub mark: Mark,
}
