use mark_step::{Mark, Mode};
use type_core::TypeId;

/// What marking adds to a node.
#[derive(Clone, Copy, Debug, PartialEq, Eq)]
pub struct Added {
    /// What is wanted of it, where it is an expression.
    pub mode: Option<Mode>,
    /// Its type, where it is an expression or a type.
    pub typ: Option<TypeId>,
    pub mark: Mark,
}
