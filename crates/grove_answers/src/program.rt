ghost use Rattle.std.specs.Prelude.{◌≡◌, IfOk};
ghost use Rattle.grove_edits.specs.Graph.{Ascends};
ghost use Rattle.grove_answers.specs.Program.{IsProgram};

use edit_table::EditTable;
use graph_table::GraphTable;
use grove_decompose::{NumberedHeads, heads_of};
use seeded_hash::HashSeed;
use std::alloc::Global;
use text_parts::NoMemory;

/// A graph by numbers, and the vertices that head its trees but for those of cycles.
#[derive(Drop)]
pub(crate) struct Program {
    pub(crate) table: GraphTable,
    /// The seed of what is found by hashes.
    pub(crate) seed: HashSeed,
    pub(crate) heads: NumberedHeads,
}

impl Program {
    /// The program of a table whose edits ascend.
    pub(crate) fn of(alloc: Global, table: EditTable, seed: HashSeed) -> Result<Program, NoMemory>
        requires { Ascends table.edits }
        ensures program { IfOk result IsProgram }
        ensures edits { IfOk result (λ program. program.table.edits ≡ table.edits) }
    {
        let table = GraphTable::of(alloc, table)?;
        let heads = heads_of(alloc, &table)?;
        Ok(Program { table, seed, heads })
    }
}
