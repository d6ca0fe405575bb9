ghost use Rattle.std.specs.Prelude.{◌≡◌, ◌<◌, IfErr, OnOk, OnErr};
ghost use Rattle.session_script.specs.Action.{IsAuthor};
ghost use Rattle.grove_editor.specs.Turned.{HasUndone, HasRedone, IsAuthorFault};

use crate::author_fault::AuthorFault;
use crate::authors::author_of;
use crate::editor::Editor;
use crate::news::News;
use crate::turn::Turn;
use crate::turning::turn_last;
use text_parts::NoMemory;

impl Editor {
    /// Undoes an author's last action that was not refused and is not undone. Where its places are not as it left them, the undoing is refused
    /// and the action stays the last.
    pub fn undo(&mut self, author: u64) -> Result<(), AuthorFault>
        ensures undone { OnOk result (IsAuthor author × HasUndone author self.old self.new) }
        ensures fault { IfErr result (IsAuthorFault author) }
        ensures unchanged { OnErr result (self.new ≡ self.old) }
    {
        let Some(author) = author_of(author) else {
            return Err(AuthorFault::NoAuthor);
        };
        self.undo_by(author)?;
        Ok(())
    }

    /// Does again what an author undid last, where the author has not acted since.
    pub fn redo(&mut self, author: u64) -> Result<(), AuthorFault>
        ensures redone { OnOk result (IsAuthor author × HasRedone author self.old self.new) }
        ensures fault { IfErr result (IsAuthorFault author) }
        ensures unchanged { OnErr result (self.new ≡ self.old) }
    {
        let Some(author) = author_of(author) else {
            return Err(AuthorFault::NoAuthor);
        };
        self.redo_by(author)?;
        Ok(())
    }

    fn undo_by(&mut self, author: u32) -> Result<(), NoMemory>
        requires author { 0 < author }
        ensures undone { OnOk result (HasUndone author self.old self.new) }
        ensures unchanged { OnErr result (self.new ≡ self.old) }
    {
        let turned = turn_last(
            self.alloc,
            &mut self.replica,
            &mut self.done,
            &mut self.undone,
            author,
        )?;
        self.news = News::of(self.alloc, Turn::Undo, turned);
        Ok(())
    }

    fn redo_by(&mut self, author: u32) -> Result<(), NoMemory>
        requires author { 0 < author }
        ensures redone { OnOk result (HasRedone author self.old self.new) }
        ensures unchanged { OnErr result (self.new ≡ self.old) }
    {
        let turned = turn_last(
            self.alloc,
            &mut self.replica,
            &mut self.undone,
            &mut self.done,
            author,
        )?;
        self.news = News::of(self.alloc, Turn::Redo, turned);
        Ok(())
    }
}
