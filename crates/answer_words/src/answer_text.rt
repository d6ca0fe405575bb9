ghost use Rattle.std.specs.Prelude.{◌≡◌, ◌∷◌, ◌++◌, OnOk, OnErr, decimal};
ghost use Rattle.grove_names.specs.Name.{name_text};
ghost use Rattle.grove_sorts.specs.Ctor.{ctor_text};
ghost use Rattle.grove_sorts.specs.Position.{position_text};
ghost use Rattle.grove_sorts.specs.Sort.{sort_text};
ghost use Rattle.edit_text.specs.Line.{spaced, Extends};
ghost use Rattle.answer_words.specs.Answer.{answer_parts, answer_text, fault_parts};

use grove_edits::{ActFault, Answer, Place, Vertex};
use grove_names::{Name, write_name};
use grove_sorts::{Ctor, Sort, write_ctor, write_position, write_sort};
use text_parts::{NoMemory, write_number};

/// Appends the words of an answer, with a space between each two.
pub fn write_answer(answer: &Answer, out: &mut Vec<u8>) -> Result<(), NoMemory>
    ensures appended { OnOk result (out.new.items ≡ out.old.items ++ answer_text answer.now) }
    ensures unchanged { OnErr result (out.new.items ≡ out.old.items) }
{
    let start = out.len();
    let written = append_answer(answer, out);
    if written.is_err() {
        out.truncate(start);
    }
    written
}

// After an error the words may stand in part, as in the functions below.
fn append_answer(answer: &Answer, out: &mut Vec<u8>) -> Result<(), NoMemory>
    ensures appended { OnOk result (out.new.items ≡ out.old.items ++ answer_text answer.now) }
    ensures in_part { OnErr result (Extends out.old.items out.new.items) }
{
    match answer {
        Answer::Made { vertex } => append_with_name(b"made ", *vertex, out),
        Answer::Moved { edge } => append_with_name(b"moved ", *edge, out),
        Answer::Done => Ok(out.extend_from_slice(b"done")?),
        Answer::Taken { edits } => append_with_number(b"edits ", *edits, out),
        Answer::Refused(fault) => append_refusal(fault, out),
    }
}

fn append_refusal(fault: &ActFault, out: &mut Vec<u8>) -> Result<(), NoMemory>
    ensures appended { OnOk result (out.new.items ≡ out.old.items ++ spaced (answer_parts (Answer.Refused fault.now))) }
    ensures in_part { OnErr result (Extends out.old.items out.new.items) }
{
    out.extend_from_slice(b"refused ")?;
    append_fault(fault, out)
}

fn append_fault(fault: &ActFault, out: &mut Vec<u8>) -> Result<(), NoMemory>
    ensures appended { OnOk result (out.new.items ≡ out.old.items ++ spaced (fault_parts fault.now)) }
    ensures in_part { OnErr result (Extends out.old.items out.new.items) }
{
    match fault {
        ActFault::NoVertex { name } => append_with_name(b"1 no-vertex ", *name, out),
        ActFault::AmbiguousVertex { first, second } => {
            append_with_vertices(b"2 ambiguous-vertex ", first, second, out)
        }
        ActFault::NoPosition { vertex } => append_with_vertex(b"3 no-position ", vertex, out),
        ActFault::WrongSort { wanted, found } => {
            append_with_sorts(b"4 wrong-sort ", *wanted, *found, out)
        }
        ActFault::Occupied { edge } => append_with_name(b"5 occupied ", edge.name, out),
        ActFault::Empty { place } => append_with_place(b"6 empty ", place, out),
        ActFault::CannotWrap { ctor } => append_with_ctor(b"7 cannot-wrap ", ctor, out),
        ActFault::NoEdge { name } => append_with_name(b"8 no-edge ", *name, out),
        ActFault::AmbiguousEdge { first, second } => {
            append_with_names(b"9 ambiguous-edge ", first.name, second.name, out)
        }
        ActFault::IntoItself { vertex } => append_with_name(b"10 into-itself ", vertex.name, out),
        ActFault::NotLoose { edge } => append_with_name(b"11 not-loose ", edge.name, out),
        ActFault::NamesSpent { greatest } => {
            append_with_number(b"12 names-spent ", *greatest, out)
        }
    }
}

fn append_with_number(word: &[u8], number: u64, out: &mut Vec<u8>) -> Result<(), NoMemory>
    ensures appended { OnOk result (out.new.items ≡ out.old.items ++ (word.now ++ decimal number)) }
    ensures in_part { OnErr result (Extends out.old.items out.new.items) }
{
    out.extend_from_slice(word)?;
    write_number(number, out)?;
    Ok(())
}

fn append_with_name(word: &[u8], name: Name, out: &mut Vec<u8>) -> Result<(), NoMemory>
    ensures appended { OnOk result (out.new.items ≡ out.old.items ++ (word.now ++ name_text name)) }
    ensures in_part { OnErr result (Extends out.old.items out.new.items) }
{
    out.extend_from_slice(word)?;
    write_name(name, out)?;
    Ok(())
}

fn append_with_names(
    word: &[u8],
    first: Name,
    second: Name,
    out: &mut Vec<u8>,
) -> Result<(), NoMemory>
    ensures appended { OnOk result (out.new.items ≡ out.old.items ++ (word.now ++ (name_text first ++ 32 ∷ name_text second))) }
    ensures in_part { OnErr result (Extends out.old.items out.new.items) }
{
    append_with_name(word, first, out)?;
    append_with_name(b" ", second, out)
}

fn append_with_ctor(word: &[u8], ctor: &Ctor, out: &mut Vec<u8>) -> Result<(), NoMemory>
    ensures appended { OnOk result (out.new.items ≡ out.old.items ++ (word.now ++ ctor_text ctor.now)) }
    ensures in_part { OnErr result (Extends out.old.items out.new.items) }
{
    out.extend_from_slice(word)?;
    write_ctor(ctor, out)?;
    Ok(())
}

fn append_with_vertex(word: &[u8], vertex: &Vertex, out: &mut Vec<u8>) -> Result<(), NoMemory>
    ensures appended { OnOk result (out.new.items ≡ out.old.items ++ (word.now ++ (name_text vertex.now.name ++ 32 ∷ ctor_text vertex.now.ctor))) }
    ensures in_part { OnErr result (Extends out.old.items out.new.items) }
{
    append_with_name(word, vertex.name, out)?;
    append_with_ctor(b" ", &vertex.ctor, out)
}

fn append_with_vertices(
    word: &[u8],
    first: &Vertex,
    second: &Vertex,
    out: &mut Vec<u8>,
) -> Result<(), NoMemory>
    ensures appended { OnOk result (out.new.items ≡ out.old.items ++ (word.now ++ (name_text first.now.name ++ 32 ∷ (ctor_text first.now.ctor ++ 32 ∷ (name_text second.now.name ++ 32 ∷ ctor_text second.now.ctor))))) }
    ensures in_part { OnErr result (Extends out.old.items out.new.items) }
{
    append_with_vertex(word, first, out)?;
    append_with_vertex(b" ", second, out)
}

fn append_with_place(word: &[u8], place: &Place, out: &mut Vec<u8>) -> Result<(), NoMemory>
    ensures appended { OnOk result (out.new.items ≡ out.old.items ++ (word.now ++ (name_text place.now.name ++ 32 ∷ position_text place.now.position))) }
    ensures in_part { OnErr result (Extends out.old.items out.new.items) }
{
    append_with_name(word, place.name, out)?;
    out.push(b' ')?;
    write_position(place.position, out)?;
    Ok(())
}

fn append_with_sorts(
    word: &[u8],
    first: Sort,
    second: Sort,
    out: &mut Vec<u8>,
) -> Result<(), NoMemory>
    ensures appended { OnOk result (out.new.items ≡ out.old.items ++ (word.now ++ (sort_text first ++ 32 ∷ sort_text second))) }
    ensures in_part { OnErr result (Extends out.old.items out.new.items) }
{
    out.extend_from_slice(word)?;
    write_sort(first, out)?;
    out.push(b' ')?;
    write_sort(second, out)?;
    Ok(())
}
