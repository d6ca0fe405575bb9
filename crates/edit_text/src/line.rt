ghost use Rattle.std.specs.Prelude.{◌≡◌, ◌≢◌, ◌∷◌, ◌++◌, ℕ, List, IfOk, IfErr, IfSome, IfNone, IsSomeAnd, Some};
ghost use Rattle.text_parts.specs.Separated.{Lacks};
ghost use Rattle.grove_names.specs.declared.name.Name.{Name};
ghost use Rattle.grove_names.specs.Name.{name_text, InRange as NameInRange};
ghost use Rattle.grove_sorts.specs.declared.ctor.Ctor.{Ctor};
ghost use Rattle.grove_sorts.specs.declared.position.Position.{Position};
ghost use Rattle.grove_sorts.specs.Ctor.{ctor_text, InRange as CtorInRange};
ghost use Rattle.grove_sorts.specs.Spelled.{spelled_ctor};
ghost use Rattle.grove_sorts.specs.Position.{position_text};
ghost use Rattle.grove_edits.specs.declared.edge.Edge.{Edge};
ghost use Rattle.grove_edits.specs.declared.vertex.Vertex.{Vertex};
ghost use Rattle.grove_sorts.specs.Version.{IsCtorOf, IsPositionOf};
ghost use Rattle.grove_edits.specs.Edge.{EdgeInRange, IsEdgeOf};
ghost use Rattle.grove_edits.specs.SpelledEdge.{spelled_edge};
ghost use Rattle.grove_edits.specs.SpelledEdit.{spelled_edit};
ghost use Rattle.grove_edits.specs.Vertex.{VertexInRange};
ghost use Rattle.edit_text.specs.Line.{Spells, HasFault, HasNoForm, form, spaced, edge_parts};

use crate::line_fault::LineFault;
use grove_edits::{Edit, EditKind, SpelledEdge, SpelledEdit, SpelledVertex};
use grove_names::Name;
use grove_sorts::{Position, SpelledCtor, Version, read_position, read_spelled};
use text_parts::split_at_next;

/// Reads a line of the version, given without its LF, or answers the first fault that applies. It takes no memory.
pub fn read_line(version: Version, line: &[u8]) -> Result<Edit, LineFault>
    ensures edit { IfOk result (Spells version line.now) }
    ensures first_fault { IfErr result (HasFault version line.now) }
{
    let spelled = read_spelled_line(version, line)?;
    Ok(spelled.edit())
}

/// Reads a line likewise, and leaves the identifier of the target where it stands in the line: nothing wide is made.
#[inline(always)]
pub fn read_spelled_line(version: Version, line: &[u8]) -> Result<SpelledEdit<'_>, LineFault>
    ensures edit { IfOk result (λ edit. Spells version line.now (spelled_edit edit)) }
    ensures first_fault { IfErr result (HasFault version line.now) }
{
    let Some((kind, edge)) = read_form(version, line) else {
        return Err(LineFault::Syntax);
    };
    match SpelledEdit::new(kind, edge) {
        Ok(edit) => Ok(edit),
        Err(fault) => Err(LineFault::from(fault)),
    }
}

// The edge of a line need not be well formed.
#[inline(always)]
fn read_form(version: Version, line: &[u8]) -> Option<(EditKind, SpelledEdge<'_>)>
    ensures found { IfSome result (λ read. line.now ≡ form read.0 (spelled_edge read.1)) }
    ensures of_version { IfSome result (λ read. IsEdgeOf version (spelled_edge read.1)) }
    ensures none { IfNone result (HasNoForm version line.now) }
{
    match line {
        [b'+', text @ ..] => Some((EditKind::Insert, read_edge(version, text)?)),
        [b'-', text @ ..] => Some((EditKind::Delete, read_edge(version, text)?)),
        _ => None,
    }
}

#[inline(always)]
fn read_edge(version: Version, text: &[u8]) -> Option<SpelledEdge<'_>>
    ensures found { IfSome result (λ edge. text.now ≡ spaced (edge_parts (spelled_edge edge))) }
    ensures of_version { IfSome result (λ edge. IsEdgeOf version (spelled_edge edge)) }
    ensures none { IfNone result ((edge : Edge) → EdgeInRange edge → IsEdgeOf version edge → text.now ≢ spaced (edge_parts edge)) }
{
    let (name, rest) = take_name(text)?;
    let (source, rest) = take_vertex(version, rest)?;
    let (position, rest) = take_position(version, rest)?;
    let target = read_vertex(version, rest)?;
    Some(SpelledEdge {
        name,
        source,
        position,
        target,
    })
}

// A vertex: its name, a space and its constructor.
#[inline(always)]
fn read_vertex(version: Version, text: &[u8]) -> Option<SpelledVertex<'_>>
    ensures found { IfSome result (λ vertex. text.now ≡ name_text vertex.name ++ 32 ∷ ctor_text (spelled_ctor vertex.ctor)) }
    ensures of_version { IfSome result (λ vertex. IsCtorOf version (spelled_ctor vertex.ctor)) }
    ensures none { IfNone result ((vertex : Vertex) → NameInRange vertex.name → CtorInRange vertex.ctor → IsCtorOf version vertex.ctor
        → text.now ≢ name_text vertex.name ++ 32 ∷ ctor_text vertex.ctor) }
{
    let (name, rest) = take_name(text)?;
    let ctor = read_spelled(version, rest)?;
    Some(SpelledVertex { name, ctor })
}

// A vertex and the space behind it, and what stands after them.
#[inline(always)]
fn take_vertex(version: Version, text: &[u8]) -> Option<(SpelledVertex<'_>, &[u8])>
    ensures found { IfSome result (λ read. text.now ≡ name_text read.0.name ++ 32 ∷ (ctor_text (spelled_ctor read.0.ctor) ++ 32 ∷ read.1.now)) }
    ensures of_version { IfSome result (λ read. IsCtorOf version (spelled_ctor read.0.ctor)) }
    ensures only { (vertex : Vertex) (rest : List ℕ) → NameInRange vertex.name → CtorInRange vertex.ctor → IsCtorOf version vertex.ctor
        → text.now ≡ name_text vertex.name ++ 32 ∷ (ctor_text vertex.ctor ++ 32 ∷ rest)
        → IsSomeAnd result (λ read. (read.0.name ≡ vertex.name) × (spelled_ctor read.0.ctor ≡ vertex.ctor) × (read.1.now ≡ rest)) }
{
    let (name, rest) = take_name(text)?;
    let (ctor, rest) = take_ctor(version, rest)?;
    Some((SpelledVertex { name, ctor }, rest))
}

// A name and the space behind it, and what stands after them.
#[inline(never)]
fn take_name(text: &[u8]) -> Option<(Name, &[u8])>
    ensures found { IfSome result (λ read. text.now ≡ name_text read.0 ++ 32 ∷ read.1.now) }
    ensures only { (name : Name) (rest : List ℕ) → NameInRange name → text.now ≡ name_text name ++ 32 ∷ rest
        → IsSomeAnd result (λ read. (read.0 ≡ name) × (read.1.now ≡ rest)) }
{
    let (name, rest) = grove_names::take_name(text)?;
    match rest {
        [b' ', rest @ ..] => Some((name, rest)),
        _ => None,
    }
}

// A constructor and the space behind it, and what stands after them.
#[inline(always)]
fn take_ctor(version: Version, text: &[u8]) -> Option<(SpelledCtor<'_>, &[u8])>
    ensures found { IfSome result (λ read. text.now ≡ ctor_text (spelled_ctor read.0) ++ 32 ∷ read.1.now) }
    ensures of_version { IfSome result (λ read. IsCtorOf version (spelled_ctor read.0)) }
    ensures only { (ctor : Ctor) (rest : List ℕ) → CtorInRange ctor → IsCtorOf version ctor → text.now ≡ ctor_text ctor ++ 32 ∷ rest
        → IsSomeAnd result (λ read. (spelled_ctor read.0 ≡ ctor) × (read.1.now ≡ rest)) }
{
    let (part, rest) = take_part(text)?;
    let ctor = read_spelled(version, part)?;
    Some((ctor, rest))
}

// A position's word and the space behind it, and what stands after them.
#[inline(always)]
fn take_position(version: Version, text: &[u8]) -> Option<(Position, &[u8])>
    ensures found { IfSome result (λ read. text.now ≡ position_text read.0 ++ 32 ∷ read.1.now) }
    ensures of_version { IfSome result (λ read. IsPositionOf version read.0) }
    ensures only { (position : Position) (rest : List ℕ) → IsPositionOf version position → text.now ≡ position_text position ++ 32 ∷ rest
        → IsSomeAnd result (λ read. (read.0 ≡ position) × (read.1.now ≡ rest)) }
{
    let (part, rest) = take_part(text)?;
    let position = read_position(version, part)?;
    Some((position, rest))
}

// The part before the next space, and what stands after that. It stands by itself so that its loop is quick.
#[inline(never)]
fn take_part(text: &[u8]) -> Option<(&[u8], &[u8])>
    ensures parts { IfSome result (λ parts. text.now ≡ parts.0.now ++ 32 ∷ parts.1.now) }
    ensures first { IfSome result (λ parts. Lacks 32 parts.0.now) }
    ensures none { IfNone result (Lacks 32 text.now) }
{
    split_at_next(text, b' ')
}
