ghost use Rattle.std.specs.Prelude.{◌+◌, ◌≤◌, ℕ, reverse, IfOk, OnOk, OnErr};
ghost use Rattle.grove_edits.specs.Graph.{IsSame, graph as graph_of, graph_join};
ghost use Rattle.graph_words.specs.States.{state_in, KeepsRoom};
ghost use Rattle.live_graph.specs.NumberOf.{KeepsNumbersOf};
ghost use Rattle.mark_incremental.specs.Standing.{StandFor};
ghost use Rattle.mark_incremental.specs.Applying.{HaveGrown, KeepMarksRoom};
ghost use Rattle.mark_incremental.specs.Cost.{IsCostOf};
ghost use Rattle.mark_incremental.specs.Changed.{AreChangedMarks};
ghost use Rattle.mark_incremental.specs.Receipts.{Held, held, IsAsBefore, HaveLed};

use crate::applying::Applied;
use crate::marks::Marks;
use graph_words::Steps;
use grove_edits::{Edit, Vertex};
use live_graph::LiveGraph;
use std::sync::ledger::Ledger;
use text_parts::NoMemory;

/// An edit that was applied, and what it changed.
#[derive(Drop)]
pub(crate) struct Receipt<'e> {
    pub(crate) edit: &'e Edit,
    pub(crate) applied: Applied,
}

impl Marks {
    // Takes back edits, the last one first, of which these are the receipts in the order in which they were applied.
    fn take_back_all(&mut self, receipts: Vec<Receipt<'_>>, graph: &mut LiveGraph)
        requires led { (before : Held) × HaveLed (reverse receipts.items) before (held graph.old self.old) }
        ensures back { (before : Held) → HaveLed (reverse receipts.entry.items) before (held graph.old self.old)
            → IsAsBefore before (held graph.new self.new) }
    {
        let mut left = receipts;
        while let Some(last) = left.pop() {
            self.take_back(last.edit, &last.applied, graph);
        }
    }

    // Applies edits one after the other, all of them or none, and answers their receipts, in order.
    fn apply_each<'e, L: Ledger>(
        &mut self,
        edits: &'e [Edit],
        graph: &mut LiveGraph,
        steps: &mut Steps<L>,
    ) -> Result<Vec<Receipt<'e>>, NoMemory>
        requires stand { StandFor (state_in graph.old) self.old }
        ensures joined { OnOk result (IsSame (state_in graph.new) (graph_join (state_in graph.old) (graph_of edits.now))) }
        ensures unchanged { OnErr result (IsSame (state_in graph.new) (state_in graph.old)) }
        ensures stand { StandFor (state_in graph.new) self.new }
        ensures kept { OnErr result (HaveGrown self.old self.new) }
        ensures room_stays { KeepsRoom graph.old graph.new }
        ensures numbers_stay { KeepsNumbersOf graph.old graph.new }
        ensures marks_room_stays { KeepMarksRoom self.old self.new }
        ensures ticks { (cost : ℕ) → IsCostOf (state_in graph.old) edits.now cost → steps.new ≤ steps.old + cost }
        ensures led { IfOk result (λ receipts. HaveLed (reverse receipts.items) (held graph.old self.old) (held graph.new self.new)) }
    {
        let mut receipts = Vec::with_capacity(self.alloc, edits.len())?;
        for edit in edits {
            match self.apply(edit, graph, steps) {
                Ok(applied) => receipts.push_reserved(Receipt { edit, applied }),
                Err(no_memory) => {
                    self.take_back_all(receipts, graph);
                    return Err(no_memory);
                }
            }
        }
        Ok(receipts)
    }

    /// Applies edits one after the other, all of them or none. Where memory runs out, the graph, the records and the roots of cycles
    /// stay; the tables may have grown, what room was made stays, and the counter keeps what was ticked until then. It ticks at most 64
    /// times for each unit of the size of each edit, and 64 times more for each.
    pub fn apply_all<L: Ledger>(
        &mut self,
        edits: &[Edit],
        graph: &mut LiveGraph,
        steps: &mut Steps<L>,
    ) -> Result<(), NoMemory>
        requires stand { StandFor (state_in graph.old) self.old }
        ensures joined { OnOk result (IsSame (state_in graph.new) (graph_join (state_in graph.old) (graph_of edits.now))) }
        ensures unchanged { OnErr result (IsSame (state_in graph.new) (state_in graph.old)) }
        ensures stand { StandFor (state_in graph.new) self.new }
        ensures kept { OnErr result (HaveGrown self.old self.new) }
        ensures room_stays { KeepsRoom graph.old graph.new }
        ensures numbers_stay { KeepsNumbersOf graph.old graph.new }
        ensures marks_room_stays { KeepMarksRoom self.old self.new }
        ensures ticks { (cost : ℕ) → IsCostOf (state_in graph.old) edits.now cost → steps.new ≤ steps.old + cost }
    {
        self.apply_each(edits, graph, steps)?;
        Ok(())
    }

    /// Applies edits as `apply_all` does, and answers the vertices that are judged otherwise now, in vertex order: those whose record has
    /// another mode, type or mark, or came or went, and those that became the root of a cycle or ceased to be one. A context alone that is
    /// another is no change.
    pub fn apply_all_telling<L: Ledger>(
        &mut self,
        edits: &[Edit],
        graph: &mut LiveGraph,
        steps: &mut Steps<L>,
    ) -> Result<Vec<Vertex>, NoMemory>
        requires stand { StandFor (state_in graph.old) self.old }
        ensures joined { OnOk result (IsSame (state_in graph.new) (graph_join (state_in graph.old) (graph_of edits.now))) }
        ensures unchanged { OnErr result (IsSame (state_in graph.new) (state_in graph.old)) }
        ensures stand { StandFor (state_in graph.new) self.new }
        ensures kept { OnErr result (HaveGrown self.old self.new) }
        ensures room_stays { KeepsRoom graph.old graph.new }
        ensures numbers_stay { KeepsNumbersOf graph.old graph.new }
        ensures marks_room_stays { KeepMarksRoom self.old self.new }
        ensures ticks { (cost : ℕ) → IsCostOf (state_in graph.old) edits.now cost → steps.new ≤ steps.old + cost }
        ensures changed { IfOk result (λ changed. AreChangedMarks (state_in graph.old) (state_in graph.new) changed.items) }
    {
        let receipts = self.apply_each(edits, graph, steps)?;
        match self.changed_since(&receipts) {
            Ok(changed) => Ok(changed),
            Err(no_memory) => {
                self.take_back_all(receipts, graph);
                Err(no_memory)
            }
        }
    }
}
