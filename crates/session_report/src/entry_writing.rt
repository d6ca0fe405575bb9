ghost use Rattle.std.specs.Prelude.{◌≡◌, [], ◌∷◌, ◌++◌, OnOk, OnErr, codes, decimal};
ghost use Rattle.edit_text.specs.Line.{spaced, Extends};
ghost use Rattle.session_script.specs.Action.{action_line};
ghost use Rattle.answer_words.specs.Answer.{answer_parts, answer_text};
ghost use Rattle.session_report.specs.Entry.{entry_line, entry_text};

use crate::report_writing::append_with_number;
use answer_words::write_answer;
use grove_edits::{Action, Actor, Answer, Command};
use session_script::write_action;
use shared_edits::SharedEdits;
use shared_replica::{Entry, Machine};
use text_parts::NoMemory;

/// Appends the line of an entry, with its LF.
pub fn append_entry<M: Machine<Command = Command, Effect = SharedEdits, Reply = Answer>>(
    entry: &Entry<M>,
    out: &mut Vec<u8>,
) -> Result<(), NoMemory>
    ensures appended { OnOk result (out.new.items ≡ out.old.items ++ entry_text entry.now) }
    ensures unchanged { OnErr result (out.new.items ≡ out.old.items) }
{
    let start = out.len();
    let written = append_line(entry.actor, &entry.command, &entry.reply, out);
    if written.is_err() {
        out.truncate(start);
    }
    written
}

// After an error the line may stand in part, as in the functions below.
fn append_line(
    actor: Actor,
    command: &Command,
    answer: &Answer,
    out: &mut Vec<u8>,
) -> Result<(), NoMemory>
    ensures appended { OnOk result (out.new.items ≡ out.old.items ++ (entry_line actor command.now answer.now ++ 10 ∷ [])) }
    ensures in_part { OnErr result (Extends out.old.items out.new.items) }
{
    match (actor, command) {
        (Actor::Author(author), Command::Act(action)) => append_act(author, action, answer, out)?,
        (Actor::Send(send), Command::Take { piece, .. }) => append_take(send, *piece, answer, out)?,
        _ => {}
    }
    out.push(b'\n')?;
    Ok(())
}

fn append_act(
    author: u32,
    action: &Action,
    answer: &Answer,
    out: &mut Vec<u8>,
) -> Result<(), NoMemory>
    ensures appended { OnOk result (out.new.items ≡ out.old.items ++ (action_line author action.now ++ (codes " = " ++ answer_text answer.now))) }
    ensures in_part { OnErr result (Extends out.old.items out.new.items) }
{
    write_action(author, action, out)?;
    out.extend_from_slice(b" = ")?;
    write_answer(answer, out)
}

fn append_take(send: u32, piece: u64, answer: &Answer, out: &mut Vec<u8>) -> Result<(), NoMemory>
    ensures appended { OnOk result (out.new.items ≡ out.old.items ++ spaced (codes "send" ∷ decimal send ∷ codes "piece" ∷ decimal piece ∷ answer_parts answer.now)) }
    ensures in_part { OnErr result (Extends out.old.items out.new.items) }
{
    append_with_number(b"send ", u64::from(send), out)?;
    append_with_number(b" piece ", piece, out)?;
    out.push(b' ')?;
    write_answer(answer, out)
}
