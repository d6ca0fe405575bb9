ghost use Rattle.std.specs.Prelude.{◌≡◌, ◌≤◌, IfOk, IfErr};
ghost use Rattle.session_script.specs.Session.{IsSession};
ghost use Rattle.undo_answers.specs.Fit.{IsFit};
ghost use Rattle.undo_answers.specs.UndoText.{IsUndoText};
ghost use Rattle.grove_calls.specs.Due.{IsRefusal};
ghost use Rattle.grove_tools.specs.declared.tool.Tool.TheVariants.{Undo};
ghost use Rattle.grove_tools.specs.Due.{IsAnswer, nothing_handed, tool_rules};

use crate::outcome::Handed;
use grove_calls::{Formed, Refusal};
use seeded_hash::HashSeed;
use session_script::{Session, read_session};
use std::alloc::Global;
use text_parts::NoMemory;
use undo_answers::{is_fit, undo_text};

/// Undoes an author's last action that was not refused in the session of a text.
pub(crate) fn form_undo(
    alloc: Global,
    seed: HashSeed,
    author: u32,
    text: &[u8],
) -> Result<Formed<Handed>, Refusal>
    requires author { 1 ≤ author }
    ensures answered { IfOk result (λ formed. IsAnswer (Undo author) text.now formed.handed formed.text.items) }
    ensures refused { IfErr result (IsRefusal tool_rules (Undo author) text.now) }
{
    let session = read_session(alloc, text)?;
    if !is_fit(&session) {
        return Err(Refusal::Unfit);
    }
    Ok(undone(alloc, seed, &session, author)?)
}

fn undone(
    alloc: Global,
    seed: HashSeed,
    session: &Session,
    author: u32,
) -> Result<Formed<Handed>, NoMemory>
    requires session { IsSession session.now }
    requires fit { IsFit session.now }
    requires author { 1 ≤ author }
    ensures text { IfOk result (λ formed. IsUndoText session.now author formed.text.items) }
    ensures handed { IfOk result (λ formed. formed.handed ≡ nothing_handed) }
{
    let text = undo_text(alloc, seed, session, author)?;
    Ok(Formed {
        text,
        handed: Handed {
            relayed: None,
            kept: None,
        },
    })
}
