ghost use Rattle.std.specs.Prelude.{◌≡◌, ◌++◌, List, IfOk, IfErr, OnOk, OnErr};
ghost use Rattle.grove_sorts.specs.declared.version.Version.{Version};
ghost use Rattle.grove_edits.specs.declared.edit.Edit.{Edit};
ghost use Rattle.edit_text.specs.Whole.{HasWholeFault, IsTextOf};
ghost use Rattle.grove_editor.specs.State.{with_fed, without_fed};
ghost use Rattle.grove_editor.specs.Taken.{HasTaken, after_fault};

use crate::editor::Editor;
use crate::news::News;
use crate::reading::read_edits;
use crate::replica_calls::take;
use crate::reply::Reply;
use edit_text::TextFault;
use grove_edits::{Answer, EditList};
use text_parts::NoMemory;

impl Editor {
    /// Takes the edits of a whole text, all of them or none. A text that is fed in pieces meanwhile stays apart from it.
    pub fn apply(&mut self, text: &[u8]) -> Result<(), TextFault>
        ensures taken { OnOk result ((version : Version) × (edits : List Edit) × IsTextOf text.now version edits × HasTaken edits self.old self.new) }
        ensures fault { IfErr result (HasWholeFault text.now) }
        ensures unchanged { OnErr result (self.new ≡ self.old) }
    {
        let edits = read_edits(self.alloc, text)?;
        Ok(self.take_edits(&edits)?)
    }

    /// Appends a piece of a text of edits, which may be cut anywhere, to those that were fed before.
    pub fn feed(&mut self, piece: &[u8]) -> Result<(), NoMemory>
        ensures fed { OnOk result (self.new ≡ with_fed (self.old.fed ++ piece.now) self.old) }
        ensures unchanged { OnErr result (self.new ≡ self.old) }
    {
        self.fed.extend_from_slice(piece)?;
        Ok(())
    }

    /// Takes the edits of the text that was fed, all of them or none, and lets go of the text. A text that is none is let go of too.
    pub fn take(&mut self) -> Result<(), TextFault>
        ensures taken { OnOk result ((version : Version) × (edits : List Edit) × IsTextOf self.old.fed version edits × HasTaken edits (without_fed self.old) self.new) }
        ensures fault { IfErr result (HasWholeFault self.old.fed) }
        ensures left { IfErr result (λ fault. self.new ≡ after_fault fault self.old) }
    {
        match read_edits(self.alloc, &self.fed) {
            Ok(edits) => {
                self.take_edits(&edits)?;
                self.let_go();
                Ok(())
            }
            Err(TextFault::NoMemory) => Err(TextFault::NoMemory),
            Err(fault) => {
                self.let_go();
                Err(fault)
            }
        }
    }

    /// Takes edits, all of them or none.
    pub fn take_edits(&mut self, edits: &EditList) -> Result<(), NoMemory>
        ensures taken { OnOk result (HasTaken edits.now self.old self.new) }
        ensures unchanged { OnErr result (self.new ≡ self.old) }
    {
        let changed = take(&mut self.replica, edits)?;
        let answer = Answer::Taken {
            edits: edits.len() as u64,
        };
        self.news = News {
            reply: Reply::Answered(answer),
            made: EditList::new(self.alloc),
            changed,
        };
        Ok(())
    }

    // Nothing was fed.
    fn let_go(&mut self)
        ensures { self.new ≡ without_fed self.old }
    {
        self.fed = Vec::new(self.alloc);
    }
}
