ghost use Rattle.std.specs.Prelude.{◌≡◌, ◌++◌, ℕ, List, IfErr, OnOk, OnErr};
ghost use Rattle.grove_edits.specs.Graph.{graph};
ghost use Rattle.edit_ranges.specs.Lacking.{lacking};
ghost use Rattle.edit_ranges.specs.Text.{HasSummaryFault};
ghost use Rattle.grove_editor.specs.CatchingUp.{IsLackingText, IsSummaryText};
ghost use Rattle.grove_editor.specs.EditsText.{edits_text};

use crate::editor::Editor;
use crate::texts::append_edits;
use edit_ranges::{Summary, SummaryFault, lacking, read_summary, summary_of};
use text_parts::NoMemory;

impl Editor {
    /// Appends the text of the summary of the graph, by which another editor answers what this one lacks.
    pub fn append_summary(&self, out: &mut Vec<u8>) -> Result<(), NoMemory>
        ensures appended { OnOk result ((text : List ℕ) × IsSummaryText (graph self.now.edits) text × (out.new.items ≡ out.old.items ++ text)) }
        ensures unchanged { OnErr result (out.new.items ≡ out.old.items) }
    {
        let edits = self.replica.in_order(self.alloc)?;
        let summary = summary_of(self.alloc, edits.as_slice())?;
        summary.append_text(out)
    }

    /// Appends the text of the edits that another editor lacks by the text of its summary, and nothing where it lacks none. A text that is
    /// none is refused with its first bad line.
    pub fn append_lacking(&self, summary: &[u8], out: &mut Vec<u8>) -> Result<(), SummaryFault>
        ensures appended { OnOk result ((text : List ℕ) × IsLackingText summary.now self.now.edits text × (out.new.items ≡ out.old.items ++ text)) }
        ensures fault { IfErr result (HasSummaryFault summary.now) }
        ensures unchanged { OnErr result (out.new.items ≡ out.old.items) }
    {
        let other = read_summary(self.alloc, summary)?;
        self.append_lacking_by(&other, out)?;
        Ok(())
    }

    fn append_lacking_by(&self, other: &Summary, out: &mut Vec<u8>) -> Result<(), NoMemory>
        ensures appended { OnOk result (out.new.items ≡ out.old.items ++ edits_text (lacking other.now self.now.edits)) }
        ensures unchanged { OnErr result (out.new.items ≡ out.old.items) }
    {
        let edits = self.replica.in_order(self.alloc)?;
        let lacking = lacking(self.alloc, edits.as_slice(), other)?;
        append_edits(lacking.as_slice(), out)
    }
}
