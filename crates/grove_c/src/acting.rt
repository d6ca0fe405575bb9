ghost use Rattle.std.specs.Prelude.{◌≡◌, ◌≢◌, false, IsTrue, OnOk, OnErr, IfErr};
ghost use Rattle.edit_text.specs.Line.{spaced};
ghost use Rattle.session_script.specs.Action.{action_parts, IsAuthor};
ghost use Rattle.grove_edits.specs.declared.action.Action.{Action};
ghost use Rattle.grove_editor.specs.Acted.{HasActed, IsActionFault};
ghost use Rattle.grove_editor.specs.Turned.{HasUndone, HasRedone, IsAuthorFault};
ghost use Rattle.grove_editor.specs.declared.action_fault.ActionFault.TheVariants as action_fault;
ghost use Rattle.grove_c.specs.Codes.{answer_code, is_fault, reply_code};
ghost use Rattle.grove_c.specs.declared.code.TheConstants.{MALFORMED, NO_AUTHOR};

use crate::code::{DONE, MALFORMED, NO_AUTHOR, NO_MEMORY, NOTHING, REFUSED};
use crate::held::Held;
use core::mem::replace_with;
use grove_editor::{ActionFault, AuthorFault, Reply};
use grove_edits::Answer;

/// An author's action, by its words. Where it is no fault the code tells what the reply came to.
#[unsafe(no_mangle)]
pub extern "C" fn grove_c_act(held: &mut Held, author: u32, line: &[u8]) -> u32
    ensures acted { is_fault result ≡ false → (action : Action) × (line.now ≡ spaced (action_parts action)) × IsAuthor author × HasActed author action held.old.editor held.new.editor }
    ensures code { is_fault result ≡ false → result ≡ reply_code held.new.editor.reply }
    ensures unchanged { IsTrue (is_fault result) → held.new.editor ≡ held.old.editor }
    ensures no_author { result ≡ NO_AUTHOR → IsActionFault author line.now action_fault.NoAuthor }
    ensures malformed { result ≡ MALFORMED → IsActionFault author line.now action_fault.Syntax }
{
    match replace_with(held, (author, line), act) {
        (Ok(()), code) => code,
        (Err(ActionFault::NoAuthor), _) => NO_AUTHOR,
        (Err(ActionFault::Syntax), _) => MALFORMED,
        (Err(ActionFault::NoMemory), _) => NO_MEMORY,
    }
}

fn act(held: Held, given: (u32, &[u8])) -> (Held, (Result<(), ActionFault>, u32))
    ensures acted { OnOk result.1.0 ((action : Action) × (given.entry.1.now ≡ spaced (action_parts action)) × IsAuthor given.entry.0 × HasActed given.entry.0 action held.editor result.0.editor) }
    ensures code { result.1.1 ≡ reply_code result.0.editor.reply }
    ensures no_fault { is_fault result.1.1 ≡ false }
    ensures fault { IfErr result.1.0 (IsActionFault given.entry.0 given.entry.1.now) }
    ensures unchanged { OnErr result.1.0 (result.0.editor ≡ held.editor) }
{
    let (author, line) = given;
    let mut instance = held.into_instance();
    let opened = &mut *instance;
    opened.text = None;
    let acted = opened.editor.act(u64::from(author), line);
    let code = code_of_reply(opened.editor.reply());
    (Held::of(instance), (acted, code))
}

/// Undoes an author's last action that was not refused and is not undone.
#[unsafe(no_mangle)]
pub extern "C" fn grove_c_undo(held: &mut Held, author: u32) -> u32
    ensures undone { is_fault result ≡ false → IsAuthor author × HasUndone author held.old.editor held.new.editor }
    ensures code { is_fault result ≡ false → result ≡ reply_code held.new.editor.reply }
    ensures unchanged { IsTrue (is_fault result) → held.new.editor ≡ held.old.editor }
    ensures no_author { result ≡ NO_AUTHOR → IsAuthor author → ⊥ }
    ensures never { result ≢ MALFORMED }
{
    match replace_with(held, author, undo) {
        (Ok(()), code) => code,
        (Err(AuthorFault::NoAuthor), _) => NO_AUTHOR,
        (Err(AuthorFault::NoMemory), _) => NO_MEMORY,
    }
}

fn undo(held: Held, author: u32) -> (Held, (Result<(), AuthorFault>, u32))
    ensures undone { OnOk result.1.0 (IsAuthor author × HasUndone author held.editor result.0.editor) }
    ensures code { result.1.1 ≡ reply_code result.0.editor.reply }
    ensures no_fault { is_fault result.1.1 ≡ false }
    ensures fault { IfErr result.1.0 (IsAuthorFault author) }
    ensures unchanged { OnErr result.1.0 (result.0.editor ≡ held.editor) }
{
    let mut instance = held.into_instance();
    let opened = &mut *instance;
    opened.text = None;
    let undone = opened.editor.undo(u64::from(author));
    let code = code_of_reply(opened.editor.reply());
    (Held::of(instance), (undone, code))
}

/// Does again what an author undid last, where the author has not acted since.
#[unsafe(no_mangle)]
pub extern "C" fn grove_c_redo(held: &mut Held, author: u32) -> u32
    ensures redone { is_fault result ≡ false → IsAuthor author × HasRedone author held.old.editor held.new.editor }
    ensures code { is_fault result ≡ false → result ≡ reply_code held.new.editor.reply }
    ensures unchanged { IsTrue (is_fault result) → held.new.editor ≡ held.old.editor }
    ensures no_author { result ≡ NO_AUTHOR → IsAuthor author → ⊥ }
    ensures never { result ≢ MALFORMED }
{
    match replace_with(held, author, redo) {
        (Ok(()), code) => code,
        (Err(AuthorFault::NoAuthor), _) => NO_AUTHOR,
        (Err(AuthorFault::NoMemory), _) => NO_MEMORY,
    }
}

fn redo(held: Held, author: u32) -> (Held, (Result<(), AuthorFault>, u32))
    ensures redone { OnOk result.1.0 (IsAuthor author × HasRedone author held.editor result.0.editor) }
    ensures code { result.1.1 ≡ reply_code result.0.editor.reply }
    ensures no_fault { is_fault result.1.1 ≡ false }
    ensures fault { IfErr result.1.0 (IsAuthorFault author) }
    ensures unchanged { OnErr result.1.0 (result.0.editor ≡ held.editor) }
{
    let mut instance = held.into_instance();
    let opened = &mut *instance;
    opened.text = None;
    let redone = opened.editor.redo(u64::from(author));
    let code = code_of_reply(opened.editor.reply());
    (Held::of(instance), (redone, code))
}

fn code_of_reply(reply: &Reply) -> u32
    ensures code { result ≡ reply_code reply.now }
    ensures no_fault { is_fault result ≡ false }
{
    match reply {
        Reply::Answered(answer) => code_of_answer(answer),
        Reply::NotTurned(_) => REFUSED,
        Reply::NothingToTurn => NOTHING,
        Reply::Unasked | Reply::Undone { .. } | Reply::Redone { .. } => DONE,
    }
}

fn code_of_answer(answer: &Answer) -> u32
    ensures code { result ≡ answer_code answer.now }
    ensures no_fault { is_fault result ≡ false }
{
    match answer {
        Answer::Refused(_) => REFUSED,
        _ => DONE,
    }
}
