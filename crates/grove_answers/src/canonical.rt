ghost use Rattle.std.specs.Prelude.{◌≡◌, ◌++◌, ℕ, List, OnOk, OnErr};
ghost use Rattle.grove_edits.specs.Graph.{graph, Ascends};
ghost use Rattle.grove_answers.specs.Texts.{IsCanonicalText};

use edit_text::write_edits;
use grove_edits::EditList;
use text_parts::NoMemory;

/// Appends the canonical text: a line for each edit of a canonical list.
pub fn append_canonical_text(edits: &EditList, out: &mut Vec<u8>) -> Result<(), NoMemory>
    requires { Ascends edits.now }
    ensures appended { OnOk result ((text : List ℕ) × IsCanonicalText (graph edits.now) text × (out.new.items ≡ out.old.items ++ text)) }
    ensures unchanged { OnErr result (out.new.items ≡ out.old.items) }
{
    write_edits(edits.as_slice(), out)?;
    Ok(())
}
