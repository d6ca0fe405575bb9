ghost use Rattle.std.specs.Prelude.{◌≡◌, List, map, option_to_list, IfSome};
ghost use Rattle.std.specs.Option.{option_map};
ghost use Rattle.grove_terms.specs.Lent.{node_of};
ghost use Rattle.type_core.specs.Typ.{Typ};
ghost use Rattle.type_core.specs.TypeTable.{IsTypeOf, type_at};
ghost use Rattle.mark_step.specs.Node.{wanted_at, IsModeOf};
ghost use Rattle.marking.specs.Added.{with_added};
ghost use Rattle.marking.specs.Reading.{meant};
ghost use Rattle.marking.specs.Numbers.{IsAddedOf};
ghost use Rattle.kept_printer.specs.Above.{wanted_under, first_after, after, own};
ghost use Rattle.kept_printer.specs.Parents.{parent_at, IsParentOf};

use crate::wanted::mode_next;
use edit_table::LentCtor;
use grove_terms::{LentNode, LentWhat};
use mark_step::Mode;
use marking::Added;
use type_core::{TypeId, TypeTable};

/// A vertex above the next node.
#[derive(Clone, Copy, Debug)]
pub(crate) struct ParentVertex<'t> {
    pub(crate) ctor: LentCtor<'t>,
    /// What is wanted of it.
    pub(crate) mode: Mode,
    /// The type of the first expression under it before the next node, if there is one.
    pub(crate) first: Option<TypeId>,
}

/// What stands above the next node.
#[derive(Clone, Copy, Debug)]
pub(crate) enum Parent<'t> {
    Vertex(ParentVertex<'t>),
    /// A position with several children, each of which synthesises.
    Conflict,
}

impl<'t> Parent<'t> {
    /// What is wanted of the next node under it.
    pub(crate) fn mode_under(&self, types: &TypeTable) -> Mode
        requires { IsParentOf types.now self.now }
        ensures wanted { wanted_at types.now result ≡ wanted_under (parent_at types.now self.now) }
        ensures number { IsModeOf types.now result }
    {
        match self {
            Parent::Vertex(vertex) => mode_next(types, vertex.ctor, vertex.mode, vertex.first),
            Parent::Conflict => Mode::Syn,
        }
    }

    /// What stands above the node after one to which this is added.
    pub(crate) fn after(self, added: &Added) -> Parent<'t>
        ensures after { (types : List Typ) (node : LentNode) → parent_at types result ≡ after (meant types (with_added node added.now)) (parent_at types self.entry) }
        ensures numbers { (types : List Typ) → IsParentOf types self.entry → IsAddedOf types added.now → IsParentOf types result }
    {
        match self {
            Parent::Vertex(vertex) => Parent::Vertex(ParentVertex {
                ctor: vertex.ctor,
                mode: vertex.mode,
                first: first_after(vertex.first, added),
            }),
            Parent::Conflict => Parent::Conflict,
        }
    }
}

// The type of an expression is the first, where there was none before.
fn first_after(first: Option<TypeId>, added: &Added) -> Option<TypeId>
    ensures first { (types : List Typ) → option_map (type_at types) result ≡ first_after (option_map (wanted_at types) added.now.mode) (option_map (type_at types) added.now.typ) (option_map (type_at types) first) }
    ensures number { (types : List Typ) → IfSome first (IsTypeOf types) → IfSome added.now.typ (IsTypeOf types) → IfSome result (IsTypeOf types) }
{
    match added.mode {
        None => first,
        Some(_mode) => first.or(added.typ),
    }
}

/// What a node to which this is added is to those under it, if any stand there.
pub(crate) fn opened<'t>(node: &LentNode<'t>, added: &Added) -> Option<Parent<'t>>
    ensures opened { (types : List Typ) → map (parent_at types) (option_to_list result) ≡ own (node_of node.now).what (meant types (with_added node.now added.now)) }
    ensures numbers { (types : List Typ) → IsAddedOf types added.now → IfSome result (IsParentOf types) }
{
    match node.what() {
        LentWhat::Vertex(vertex) => Some(Parent::Vertex(ParentVertex {
            ctor: vertex.ctor,
            mode: added.mode.unwrap_or(Mode::Syn),
            first: None,
        })),
        LentWhat::Conflict(_, _) => Some(Parent::Conflict),
        LentWhat::Hole(_) | LentWhat::MultiRef(_) | LentWhat::CycleRef(_) => None,
    }
}
