//! Replies as text. After an error a part of the text may stand.
ghost use Rattle.std.specs.Prelude.{◌≡◌, ◌∷◌, [], ◌++◌, decimal, IfOk, OnOk};
ghost use Rattle.undo_answers.specs.UndoText.{fault_text, refused_line};
ghost use Rattle.grove_editor.specs.Told.{reply_text};

use crate::reply::Reply;
use answer_words::write_answer;
use grove_edits::Answer;
use grove_names::write_name;
use grove_undo::UndoFault;
use std::alloc::Global;
use text_parts::{NoMemory, write_number};

/// The line of a reply.
pub(crate) fn reply_line(alloc: Global, reply: &Reply) -> Result<Vec<u8>, NoMemory>
    ensures { IfOk result (λ text. text.items ≡ reply_text reply.now) }
{
    let mut text = Vec::new(alloc);
    append_reply(reply, &mut text)?;
    Ok(text)
}

fn append_reply(reply: &Reply, out: &mut Vec<u8>) -> Result<(), NoMemory>
    ensures { OnOk result (out.new.items ≡ out.old.items ++ reply_text reply.now) }
{
    match reply {
        Reply::Unasked => Ok(()),
        Reply::Answered(answer) => append_answer(answer, out),
        Reply::Undone { edits } => append_count(b"undone ", *edits, out),
        Reply::Redone { edits } => append_count(b"redone ", *edits, out),
        Reply::NothingToTurn => Ok(out.extend_from_slice(b"nothing\n")?),
        Reply::NotTurned(fault) => append_refused(fault, out),
    }
}

fn append_answer(answer: &Answer, out: &mut Vec<u8>) -> Result<(), NoMemory>
    ensures { OnOk result (out.new.items ≡ out.old.items ++ reply_text (Reply.Answered answer.now)) }
{
    write_answer(answer, out)?;
    out.push(b'\n')?;
    Ok(())
}

fn append_count(word: &[u8], count: u64, out: &mut Vec<u8>) -> Result<(), NoMemory>
    ensures { OnOk result (out.new.items ≡ out.old.items ++ (word.now ++ (decimal count ++ 10 ∷ []))) }
{
    out.extend_from_slice(word)?;
    write_number(count, out)?;
    out.push(b'\n')?;
    Ok(())
}

fn append_refused(fault: &UndoFault, out: &mut Vec<u8>) -> Result<(), NoMemory>
    ensures { OnOk result (out.new.items ≡ out.old.items ++ refused_line fault.now) }
{
    out.extend_from_slice(b"refused ")?;
    append_fault(fault, out)?;
    out.push(b'\n')?;
    Ok(())
}

fn append_fault(fault: &UndoFault, out: &mut Vec<u8>) -> Result<(), NoMemory>
    ensures { OnOk result (out.new.items ≡ out.old.items ++ fault_text fault.now) }
{
    match fault {
        UndoFault::Touched { edge } => {
            out.extend_from_slice(b"1 touched ")?;
            write_name(edge.name, out)
        }
        UndoFault::NamesSpent { greatest } => {
            out.extend_from_slice(b"2 names-spent ")?;
            write_number(*greatest, out)
        }
        // Want of memory is no reply.
        UndoFault::NoMemory => Ok(()),
    }
}
