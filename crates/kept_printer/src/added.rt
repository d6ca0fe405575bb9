ghost use Rattle.std.specs.Prelude.{◌≡◌, List, IfSome};
ghost use Rattle.std.specs.Option.{option_map};
ghost use Rattle.grove_terms.specs.declared.node.LentNode.{LentNode};
ghost use Rattle.grove_terms.specs.Lent.{node_of};
ghost use Rattle.type_core.specs.Typ.{Typ};
ghost use Rattle.ctx_table.specs.Context.{Context};
ghost use Rattle.mark_step.specs.Node.{wanted_at, IsModeOf};
ghost use Rattle.marking.specs.Marking.{marked_plain};
ghost use Rattle.marking.specs.Added.{with_added};
ghost use Rattle.marking.specs.Reading.{meant};
ghost use Rattle.marking.specs.Numbers.{IsAddedOf};
ghost use Rattle.mark_incremental.specs.Reading.{kept_by, IsRecordOf, AreRecordsOf};
ghost use Rattle.mark_incremental.specs.Standing.{records_in};
ghost use Rattle.kept_printer.specs.Above.{node_kept, node_told_as};

use grove_sorts::Sort;
use grove_terms::{LentNode, LentWhat};
use mark_incremental::Marks;
use mark_step::{Mark, Mode};
use mark_store::Record;
use marking::Added;
use type_core::TypeTable;

// What is added to the node of a position without a sole child, or of a reference.
fn plain(types: &TypeTable, sort: Sort, mode: Mode) -> Added
    requires { IsModeOf types.now mode }
    ensures node { (node : LentNode) → meant types.now (with_added node result) ≡ marked_plain sort (wanted_at types.now mode) (node_of node) }
    ensures numbers { IsAddedOf types.now result }
{
    let unknown = types.unknown();
    let (mode, typ) = match sort {
        Sort::Exp => (Some(mode), Some(unknown)),
        Sort::Typ => (None, Some(unknown)),
        Sort::Pat | Sort::Top => (None, None),
    };
    Added {
        mode,
        typ,
        mark: Mark::None,
    }
}

// What is added to the node of a vertex that has this record.
fn kept(found: Option<Record>) -> Added
    ensures node { (types : List Typ) (ctxs : List Context) (node : LentNode) → meant types (with_added node result) ≡ node_kept (node_of node) (option_map (kept_by types ctxs) found) }
    ensures numbers { (types : List Typ) (ctxs : List Context) → IfSome found (IsRecordOf types ctxs) → IsAddedOf types result }
{
    match found {
        Some(record) => Added {
            mode: record.mode,
            typ: record.typ,
            mark: record.mark,
        },
        None => Added {
            mode: None,
            typ: None,
            mark: Mark::None,
        },
    }
}

/// What marking adds to a node of which this is wanted, where it is no vertex; a vertex has its kept record.
pub(crate) fn added_to(marks: &Marks, mode: Mode, node: &LentNode) -> Added
    requires records { AreRecordsOf marks.now.types marks.now.contexts marks.now.records }
    requires mode { IsModeOf marks.now.types mode }
    ensures told { meant marks.now.types (with_added node.now result) ≡ node_told_as (records_in marks.now) (wanted_at marks.now.types mode) (node_of node.now) (node_of node.now).what }
    ensures numbers { IsAddedOf marks.now.types result }
{
    match node.what() {
        LentWhat::Vertex(vertex) => kept(marks.kept(&vertex.vertex())),
        LentWhat::Hole(sort) | LentWhat::Conflict(sort, _) => plain(marks.types(), sort, mode),
        LentWhat::MultiRef(vertex) | LentWhat::CycleRef(vertex) => {
            plain(marks.types(), vertex.ctor.sort(), mode)
        }
    }
}
