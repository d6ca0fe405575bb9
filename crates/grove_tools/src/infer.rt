ghost use Rattle.std.specs.Prelude.{◌≡◌, ◌≤◌, length, IfOk, IfErr};
ghost use Rattle.grove_edits.specs.Graph.{graph, Ascends};
ghost use Rattle.grove_calls.specs.Due.{IsRefusal, most_bytes};
ghost use Rattle.infer_answers.specs.Texts.{IsInferText};
ghost use Rattle.grove_tools.specs.declared.tool.Tool.TheVariants.{Infer};
ghost use Rattle.grove_tools.specs.Due.{IsAnswer, tool_rules};

use crate::outcome::Handed;
use edit_table::EditTable;
use grove_calls::{Formed, Refusal, read_edit_table};
use infer_answers::append_infer_text;
use seeded_hash::HashSeed;
use std::alloc::Global;
use text_parts::NoMemory;

/// Tells the types of the holes of the graph of a text.
pub(crate) fn form_infer(
    alloc: Global,
    seed: HashSeed,
    text: &[u8],
) -> Result<Formed<Handed>, Refusal>
    requires short { length text.now ≤ most_bytes }
    ensures answered { IfOk result (λ formed. IsAnswer Infer text.now formed.handed formed.text.items) }
    ensures refused { IfErr result (IsRefusal tool_rules Infer text.now) }
{
    let table = read_edit_table(alloc, text, seed)?;
    let text = infer_text(alloc, seed, table)?;
    Ok(Formed {
        text,
        handed: Handed {
            relayed: None,
            kept: None,
        },
    })
}

fn infer_text(alloc: Global, seed: HashSeed, table: EditTable) -> Result<Vec<u8>, NoMemory>
    requires { Ascends table.edits }
    ensures { IfOk result (λ text. IsInferText (graph table.edits) text.items) }
{
    let mut text = Vec::new(alloc);
    append_infer_text(alloc, table, seed, &mut text)?;
    Ok(text)
}
