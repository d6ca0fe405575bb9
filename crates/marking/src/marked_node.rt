ghost use Rattle.std.specs.Prelude.{◌≡◌};

use crate::added::Added;
use grove_terms::LentNode;
use mark_step::{Mark, Mode};
use type_core::TypeId;

/// A node of a tree with what marking adds to it.
#[derive(Clone, Copy, Debug)]
pub struct MarkedNode<'t> {
    pub node: LentNode<'t>,
    /// What is wanted of it, where it is an expression.
    pub mode: Option<Mode>,
    /// Its type, where it is an expression or a type.
    pub typ: Option<TypeId>,
    pub mark: Mark,
}

impl<'t> MarkedNode<'t> {
    ghost use Rattle.marking.specs.Added.{with_added};

    pub(crate) fn new(node: &LentNode<'t>, added: &Added) -> MarkedNode<'t>
        ensures { result ≡ with_added node.now added.now }
    {
        MarkedNode {
            node: *node,
            mode: added.mode,
            typ: added.typ,
            mark: added.mark,
        }
    }
}
