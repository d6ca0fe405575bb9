ghost use Rattle.std.specs.Prelude.{◌≡◌, ◌<◌, false, map, IfOk, IfErr, OnOk, OnErr};
ghost use Rattle.edit_text.specs.Line.{spaced};
ghost use Rattle.session_script.specs.Action.{action_parts, IsAuthor};
ghost use Rattle.grove_edits.specs.declared.action.Action.{Action};
ghost use Rattle.grove_edits.specs.Edit.{edit_edge};
ghost use Rattle.grove_edits.specs.Graph.{graph};
ghost use Rattle.user_actions.specs.Plan.{IsPlan};
ghost use Rattle.grove_editor.specs.Acted.{HasActed, IsActionFault};

use crate::action_fault::ActionFault;
use crate::authors::author_of;
use crate::doing::{do_deed, forget};
use crate::editor::Editor;
use crate::news::News;
use crate::reply::Reply;
use grove_edits::{Action, Answer};
use grove_sorts::Version;
use session_script::read_action;
use text_parts::NoMemory;

impl Editor {
    /// An author's action, by the words that an author's line has behind the number of the author, as `construct 1.1 cond true`. An action
    /// that is refused is answered, and makes no edits. One that is made can be undone, and what the author undid before can no longer be
    /// done again.
    pub fn act(&mut self, author: u64, line: &[u8]) -> Result<(), ActionFault>
        ensures acted { OnOk result ((action : Action) × (line.now ≡ spaced (action_parts action)) × IsAuthor author × HasActed author action self.old self.new) }
        ensures fault { IfErr result (IsActionFault author line.now) }
        ensures unchanged { OnErr result (self.new ≡ self.old) }
    {
        let Some(author) = author_of(author) else {
            return Err(ActionFault::NoAuthor);
        };
        let Some(action) = read_action(Version::Two, line) else {
            return Err(ActionFault::Syntax);
        };
        self.make(author, &action)?;
        Ok(())
    }

    /// An author's action likewise.
    pub fn make(&mut self, author: u32, action: &Action) -> Result<(), NoMemory>
        requires author { 0 < author }
        ensures acted { OnOk result (HasActed author action.now self.old self.new) }
        ensures unchanged { OnErr result (self.new ≡ self.old) }
    {
        let (edits, answer) = self.replica.plan(self.alloc, author, action)?;
        if let Answer::Refused(_) = answer {
            self.news = News::told(self.alloc, Reply::Answered(answer));
            return Ok(());
        }
        let changed = do_deed(
            self.alloc,
            &mut self.replica,
            &mut self.done,
            author,
            &edits,
        )?;
        forget(&mut self.undone, author);
        self.news = News {
            reply: Reply::Answered(answer),
            made: edits,
            changed,
        };
        Ok(())
    }
}
