ghost use Rattle.std.specs.Prelude.{◌≡◌, ◌++◌, ℕ, List, IfOk, OnOk, OnErr};
ghost use Rattle.grove_edits.specs.Graph.{graph, Ascends, IsCanonical};
ghost use Rattle.grove_answers.specs.Texts.{IsPrintText};
ghost use Rattle.grove_json.specs.JsonText.{IsJsonText};
ghost use Rattle.grove_editor.specs.EditsText.{edits_text};
ghost use Rattle.grove_editor.specs.Told.{reply_text};

use crate::editor::Editor;
use crate::reply_writing::reply_line;
use edit_table::EditTable;
use edit_text::{write_edits, write_version};
use grove_edits::{Edit, EditList};
use grove_json::json_text;
use grove_sorts::Version;
use seeded_hash::HashSeed;
use std::alloc::Global;
use text_parts::NoMemory;

impl Editor {
    /// Appends the line of the reply to the last call that takes edits, acts, undoes or redoes, and nothing before the first.
    pub fn append_reply(&self, out: &mut Vec<u8>) -> Result<(), NoMemory>
        ensures appended { OnOk result (out.new.items ≡ out.old.items ++ reply_text self.now.reply) }
        ensures unchanged { OnErr result (out.new.items ≡ out.old.items) }
    {
        let line = reply_line(self.alloc, &self.news.reply)?;
        out.extend_from_slice(&line)?;
        Ok(())
    }

    /// Appends the text of the edits that the last such call made itself, which other replicas take. There is none where it made none.
    pub fn append_made(&self, out: &mut Vec<u8>) -> Result<(), NoMemory>
        ensures appended { OnOk result (out.new.items ≡ out.old.items ++ edits_text self.now.made) }
        ensures unchanged { OnErr result (out.new.items ≡ out.old.items) }
    {
        append_edits(self.news.made.as_slice(), out)
    }

    /// Appends the text of the canonical list of the graph, from which `apply` makes the same graph.
    pub fn append_canonical(&self, out: &mut Vec<u8>) -> Result<(), NoMemory>
        ensures appended { OnOk result (out.new.items ≡ out.old.items ++ edits_text self.now.edits) }
        ensures canonical { IsCanonical (graph self.now.edits) self.now.edits }
        ensures unchanged { OnErr result (out.new.items ≡ out.old.items) }
    {
        let edits = self.replica.in_order(self.alloc)?;
        append_edits(edits.as_slice(), out)
    }

    /// Appends the print text of the graph.
    pub fn append_print(&self, out: &mut Vec<u8>) -> Result<(), NoMemory>
        ensures appended { OnOk result ((text : List ℕ) × IsPrintText (graph self.now.edits) text × (out.new.items ≡ out.old.items ++ text)) }
        ensures unchanged { OnErr result (out.new.items ≡ out.old.items) }
    {
        self.replica.print(self.alloc, out)
    }

    /// Appends the report of the graph as JSON.
    pub fn append_json(&self, out: &mut Vec<u8>) -> Result<(), NoMemory>
        ensures appended { OnOk result ((text : List ℕ) × IsJsonText (graph self.now.edits) text × (out.new.items ≡ out.old.items ++ text)) }
        ensures unchanged { OnErr result (out.new.items ≡ out.old.items) }
    {
        let edits = self.replica.in_order(self.alloc)?;
        let text = report_of(self.alloc, edits, self.replica.graph().seed())?;
        out.extend_from_slice(&text)?;
        Ok(())
    }
}

/// Appends the lines of edits behind the one that tells their version, and nothing where there are none.
pub(crate) fn append_edits(edits: &[Edit], out: &mut Vec<u8>) -> Result<(), NoMemory>
    ensures appended { OnOk result (out.new.items ≡ out.old.items ++ edits_text edits.now) }
    ensures unchanged { OnErr result (out.new.items ≡ out.old.items) }
{
    if edits.is_empty() {
        return Ok(());
    }
    let start = out.len();
    write_version(Version::Two, out)?;
    let written = write_edits(edits, out);
    if written.is_err() {
        out.truncate(start);
    }
    written
}

// The report of the graph of a canonical list, which is let go.
fn report_of(alloc: Global, edits: EditList, seed: HashSeed) -> Result<Vec<u8>, NoMemory>
    requires { Ascends edits }
    ensures { IfOk result (λ text. IsJsonText (graph edits) text.items) }
{
    let table = EditTable::of_list(alloc, &edits, seed)?;
    json_text(alloc, table, seed)
}
