ghost use Rattle.std.specs.Prelude.{◌≡◌, IfOk};
ghost use Rattle.grove_c.specs.Texts.{IsTextOf};
ghost use Rattle.grove_editor.specs.State.{at_start};

use crate::text_kind::TextKind;
use grove_editor::{Editor, NoMemory};
use seeded_hash::HashSeed;
use std::alloc::Global;
use std::marker::Model;

/// A text that was made of an editor.
#[derive(Drop)]
pub struct MadeText {
    pub(crate) kind: TextKind,
    pub(crate) bytes: Vec<u8>,
}

/// An editor, and the text that was last made of it, as long as it is a text of the editor as it is. Contracts see the editor alone.
#[derive(Drop)]
pub struct Instance {
    pub(crate) editor: Editor,
    pub(crate) text: Option<MadeText>,
}

impl Model for Instance {
    ghost use Rattle.grove_editor.specs.State.{State};
    ghost use Rattle.grove_c.specs.Texts.{IsKept};

    ghost Value = { State };

    ghost view = { λ instance. instance.editor };

    ghost invariant = { λ instance. IsKept instance.editor instance.text };
}

impl Instance {
    pub(crate) fn new(alloc: Global, seed: HashSeed) -> Result<Instance, NoMemory>
        ensures start { IfOk result (λ instance. instance ≡ at_start) }
    {
        let editor = Editor::new(alloc, seed)?;
        Ok(Instance { editor, text: None })
    }

    /// Takes out a text of this kind: the one that is kept, or a new one.
    pub(crate) fn take_text(&mut self, alloc: Global, kind: TextKind) -> Result<MadeText, NoMemory>
        ensures kind { IfOk result (λ text. text.kind ≡ kind) }
        ensures text { IfOk result (λ text. IsTextOf self.old kind text.bytes.items) }
        ensures same { self.new ≡ self.old }
    {
        match self.text.take() {
            Some(text) if text.kind == kind => Ok(text),
            _ => made_text(alloc, &self.editor, kind),
        }
    }

    /// Keeps a text for the next call that asks for it.
    pub(crate) fn keep_text(&mut self, text: MadeText)
        requires { IsTextOf self.old text.kind text.bytes.items }
        ensures same { self.new ≡ self.old }
    {
        self.text = Some(text);
    }
}

fn made_text(alloc: Global, editor: &Editor, kind: TextKind) -> Result<MadeText, NoMemory>
    ensures kind { IfOk result (λ text. text.kind ≡ kind) }
    ensures text { IfOk result (λ text. IsTextOf editor.now kind text.bytes.items) }
{
    let mut bytes = Vec::new(alloc);
    match kind {
        TextKind::Print => editor.append_print(&mut bytes)?,
        TextKind::Canonical => editor.append_canonical(&mut bytes)?,
        TextKind::Json => editor.append_json(&mut bytes)?,
        TextKind::Answer => editor.append_reply(&mut bytes)?,
        TextKind::Edits => editor.append_made(&mut bytes)?,
        TextKind::Changed => editor.append_changed(&mut bytes)?,
        TextKind::Summary => editor.append_summary(&mut bytes)?,
    }
    Ok(MadeText { kind, bytes })
}
