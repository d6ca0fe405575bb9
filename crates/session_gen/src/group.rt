ghost use Rattle.std.specs.Prelude.{◌≡◌, ◌<◌, ◌≤◌, [], ◌∷◌, slice_index_or, codes, IsTrue, None};
ghost use Rattle.grove_sorts.specs.declared.version.Version.TheVariants.{One};
ghost use Rattle.grove_sorts.specs.Ident.{ident_bytes};
ghost use Rattle.grove_sorts.specs.Identifier.{IsIdentifier};
ghost use Rattle.grove_edits.specs.Edge.{EdgeInRange, IsEdgeOf, edge_fault};
ghost use Rattle.grove_edits.specs.Edit.{edit_edge, edit_kind};
ghost use Rattle.edit_text.specs.Line.{form};
ghost use Rattle.session_gen.specs.Generated.{group_edits};
ghost use Rattle.session_gen.specs.Group.{name_in, vertex_in, edge_in, fits};

use grove_edits::{Edge, Edit, EditKind, Vertex};
use grove_names::Name;
use grove_sorts::{Ctor, Ident, Position, Version, read_ident};

// An edit of a group by its number, counted from 0.
pub(crate) fn group_edit(group: u64, number: u64) -> Edit
    requires few { group ≤ 20000 }
    requires number { number < 10 }
    ensures line { form (edit_kind result) (edit_edge result) ≡ slice_index_or (group_edits group) number [] }
    ensures of_version { IsEdgeOf One (edit_edge result) }
{
    match number {
        0 => inserted(group, 1, 1, Ctor::Plus, Position::Left, 2, Ctor::Ap),
        1 => inserted(
            group,
            2,
            1,
            Ctor::Plus,
            Position::Right,
            3,
            Ctor::Num(group),
        ),
        2 => inserted(group, 3, 2, Ctor::Ap, Position::Fun, 4, Ctor::Lam),
        3 => inserted(
            group,
            4,
            4,
            Ctor::Lam,
            Position::Param,
            5,
            Ctor::PVar(ident(b"x")),
        ),
        4 => inserted(group, 5, 4, Ctor::Lam, Position::Annot, 6, Ctor::TNum),
        5 => inserted(
            group,
            6,
            4,
            Ctor::Lam,
            Position::Body,
            7,
            Ctor::Var(ident(b"y")),
        ),
        6 => inserted(group, 7, 2, Ctor::Ap, Position::Arg, 3, Ctor::Num(group)),
        7 => inserted(group, 8, 2, Ctor::Ap, Position::Arg, 8, Ctor::LitTrue),
        8 => edit(
            EditKind::Delete,
            edge(group, 5, 4, Ctor::Lam, Position::Annot, 6, Ctor::TNum),
        ),
        _ => inserted(group, 9, 9, Ctor::Fst, Position::Operand, 9, Ctor::Fst),
    }
}

fn ident(bytes: &[u8]) -> Ident
    requires { IsIdentifier One bytes.now }
    ensures { ident_bytes result ≡ bytes.now }
{
    read_ident(Version::One, bytes).unwrap()
}

// The insertion of an edge of the group.
fn inserted(
    group: u64,
    number: u64,
    source: u64,
    source_ctor: Ctor,
    position: Position,
    target: u64,
    target_ctor: Ctor,
) -> Edit
    requires few { group ≤ 20000 }
    requires number { number < 10 }
    requires source { (1 ≤ source) × (source < 10) }
    requires target { (1 ≤ target) × (target < 10) }
    requires shape { IsTrue (fits source_ctor position target_ctor) }
    ensures edge { edit_edge result ≡ edge_in group number source source_ctor position target target_ctor }
    ensures kind { edit_kind result ≡ EditKind.Insert }
{
    edit(
        EditKind::Insert,
        edge(
            group,
            number,
            source,
            source_ctor,
            position,
            target,
            target_ctor,
        ),
    )
}

fn edit(kind: EditKind, edge: Edge) -> Edit
    requires { edge_fault edge ≡ None }
    ensures edge { edit_edge result ≡ edge }
    ensures kind { edit_kind result ≡ kind }
{
    Edit::new(kind, edge).unwrap()
}

fn edge(
    group: u64,
    number: u64,
    source: u64,
    source_ctor: Ctor,
    position: Position,
    target: u64,
    target_ctor: Ctor,
) -> Edge
    requires few { group ≤ 20000 }
    requires number { number < 10 }
    requires source { (1 ≤ source) × (source < 10) }
    requires target { (1 ≤ target) × (target < 10) }
    requires shape { IsTrue (fits source_ctor position target_ctor) }
    ensures edge { result ≡ edge_in group number source source_ctor position target target_ctor }
    ensures well_formed { edge_fault result ≡ None }
{
    Edge {
        name: name_in(group, 10 + number),
        source: Vertex {
            name: name_in(group, source),
            ctor: source_ctor,
        },
        position,
        target: Vertex {
            name: name_in(group, target),
            ctor: target_ctor,
        },
    }
}

// A name that the author of the group gives.
fn name_in(group: u64, counter: u64) -> Name
    requires few { group ≤ 20000 }
    requires counter { counter < 20 }
    ensures { result ≡ name_in group counter }
{
    Name {
        author: 1 + (group % 3) as u32,
        counter: 20 * group + counter,
    }
}
