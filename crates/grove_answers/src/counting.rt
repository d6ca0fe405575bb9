ghost use Rattle.std.specs.Prelude.{◌≡◌, IfOk, count_by};
ghost use Rattle.grove_edits.specs.Graph.{graph, Ascends};
ghost use Rattle.grove_terms.specs.Lent.{node_of};
ghost use Rattle.grove_answers.specs.Counts.{AreCounts, is_conflict, with_trees, with_nodes};
ghost use Rattle.grove_answers.specs.Laws.{nodes_none, nodes_more};

use crate::counts::Counts;
use crate::marks::marks_in;
use crate::report::Report;
use crate::reporting::report_graph;
use edit_table::EditTable;
use grove_printer::Section;
use grove_terms::{LentNode, LentWhat};
use marking::MarkedTree;
use seeded_hash::HashSeed;
use std::alloc::Global;
use text_parts::NoMemory;
use type_core::TypeTable;

/// The counts of the graph of a table whose edits ascend. What it looks up it finds by hashes under a seed.
pub fn grove_counts(alloc: Global, table: EditTable, seed: HashSeed) -> Result<Counts, NoMemory>
    requires { Ascends table.edits }
    ensures { IfOk result (AreCounts (graph table.edits)) }
{
    let mut counts = Counts {
        none: 0,
        multi: 0,
        cycle: 0,
        conflicts: 0,
        marks: 0,
    };
    report_graph(alloc, table, seed, &mut counts)?;
    Ok(counts)
}

impl Report for Counts {
    ghost begins = { λ before section trees after. after ≡ with_trees section trees before };

    ghost takes = { λ before trees marked after. after ≡ with_nodes marked before };

    ghost takes_none = { λ counts. nodes_none counts };

    ghost takes_more = { λ r s t a b m n first then. nodes_more r s t m n first then };

    fn begin(&mut self, section: Section, trees: usize) -> Result<(), NoMemory> {
        let trees = trees as u64;
        match section {
            Section::NoParent => self.none = trees,
            Section::Multi => self.multi = trees,
            Section::Cycle => self.cycle = trees,
        }
        Ok(())
    }

    // No memory holds so many nodes that their number would not fit.
    fn take(&mut self, marked: &MarkedTree, _types: &TypeTable) -> Result<(), NoMemory> {
        let conflicts = conflicts_in(marked.nodes()) as u64;
        let marks = marks_in(marked.added()) as u64;
        self.conflicts = self.conflicts.checked_add(conflicts).ok_or(NoMemory)?;
        self.marks = self.marks.checked_add(marks).ok_or(NoMemory)?;
        Ok(())
    }
}

fn conflicts_in(nodes: &[LentNode]) -> usize
    ensures { result ≡ count_by (λ n. is_conflict (node_of n).what) nodes.now }
{
    nodes.iter().filter(|node| is_conflict(node)).count()
}

fn is_conflict(node: &LentNode) -> bool
    ensures { result ≡ is_conflict (node_of node.now).what }
{
    match node.what() {
        LentWhat::Conflict(_, _) => true,
        LentWhat::Vertex(_) | LentWhat::Hole(_) | LentWhat::MultiRef(_) | LentWhat::CycleRef(_) =>
            false,
    }
}
