ghost use Rattle.std.specs.Prelude.{◌≤◌, length, IfOk, IfErr};
ghost use Rattle.grove_calls.specs.Due.{IsRefusal, most_bytes};
ghost use Rattle.grove_tools.specs.declared.tool.Tool.TheVariants.{Json};
ghost use Rattle.grove_tools.specs.Due.{IsAnswer, tool_rules};

use crate::outcome::Handed;
use grove_calls::{Formed, Refusal, read_edit_table};
use grove_json::json_text;
use seeded_hash::HashSeed;
use std::alloc::Global;

/// The report of the graph of a text as JSON.
pub(crate) fn form_json(
    alloc: Global,
    seed: HashSeed,
    text: &[u8],
) -> Result<Formed<Handed>, Refusal>
    requires short { length text.now ≤ most_bytes }
    ensures answered { IfOk result (λ formed. IsAnswer Json text.now formed.handed formed.text.items) }
    ensures refused { IfErr result (IsRefusal tool_rules Json text.now) }
{
    let table = read_edit_table(alloc, text, seed)?;
    let text = json_text(alloc, table, seed)?;
    Ok(Formed {
        text,
        handed: Handed {
            relayed: None,
            kept: None,
        },
    })
}
