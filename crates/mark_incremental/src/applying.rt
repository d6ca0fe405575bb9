ghost use Rattle.std.specs.Prelude.{◌≡◌, ◌↔◌, IsTrue, ◌+◌, ◌*◌, ◌≤◌, ◌∷◌, [], ℕ, None, IfOk, IfSome, OnOk, OnErr};
ghost use Rattle.edge_lattice.specs.State.{IsAtMost};
ghost use Rattle.grove_edits.specs.declared.vertex.Vertex.{Vertex};
ghost use Rattle.grove_edits.specs.declared.edge.Edge.{Edge};
ghost use Rattle.grove_edits.specs.declared.edit.Edit.{Edit};
ghost use Rattle.grove_edits.specs.Edit.{edit_edge, edit_kind};
ghost use Rattle.grove_edits.specs.Graph.{IsSame, graph as graph_of, graph_join, state_of};
ghost use Rattle.live_graph.specs.NumberOf.{IsNumberOf, KeepsNumbersOf};
ghost use Rattle.graph_words.specs.States.{state_in, Entries, HasRoom, KeepsRoom};
ghost use Rattle.kept_records.specs.Size.{IsSize};
ghost use Rattle.mark_store.specs.Places.{holds};
ghost use Rattle.mark_incremental.specs.Standing.{StandFor, KeptMarks, kept_in};
ghost use Rattle.mark_incremental.specs.Applying.{HaveGrown, KeepMarksRoom, put_back_in, roots_back, CanRenewBack, WasApplied, IsApplied, IsBack, CanTakeBack};

use crate::apart::is_apart;
use crate::marks::Marks;
use crate::passing::walk_from_ends;
use crate::putting::restore;
use crate::raising::{put_back, raise};
use crate::rooting::set_root;
use edge_lattice::{State, leq};
use graph_words::{ParentOf, Steps};
use grove_edits::{Edge, Edit, EditKind, Vertex};
use live_graph::{Change, LiveGraph};
use mark_store::Record;
use std::sync::ledger::Ledger;
use text_parts::NoMemory;

/// What the renewal of records after an edit replaced.
#[derive(Drop)]
pub struct OldRecords {
    /// The vertices whose records were made again, each with the record that it had, if it had one.
    pub records: Vec<(Vertex, Option<Record>)>,
    /// The vertex that became the root of a cycle or ceased to be one, if one did, and whether it was one.
    pub root: Option<(Vertex, bool)>,
}

/// What an edit changed, by which it can be taken back.
#[derive(Drop)]
pub struct Applied {
    /// What became of the state of its edge.
    pub change: Change,
    pub old: OldRecords,
}

/// Whether the edge of an edit has at least the state that is asked of it, so that nothing changes where it is taken.
pub fn is_raised(edit: &Edit, graph: &LiveGraph) -> bool
    ensures { IsTrue result ↔ IsAtMost (state_of (edit_kind edit.now)) (state_in graph.now (edit_edge edit.now)) }
{
    let asked = match edit.kind() {
        EditKind::Insert => State::Live,
        EditKind::Delete => State::Deleted,
    };
    leq(asked, graph.state(&edit.edge()))
}

impl Marks {
    /// Raises an edit in the graph, and renews the records. Where memory runs out, the graph, the
    /// records and the roots of cycles stay; the tables may have grown, and what room was made stays. It ticks at most 64 times for each
    /// unit of the size of the edit, and 64 times more. It does not tick where the edge has its state already.
    pub fn apply<L: Ledger>(
        &mut self,
        edit: &Edit,
        graph: &mut LiveGraph,
        steps: &mut Steps<L>,
    ) -> Result<Applied, NoMemory>
        requires stand { StandFor (state_in graph.old) self.old }
        ensures joined { OnOk result (IsSame (state_in graph.new) (graph_join (state_in graph.old) (graph_of (edit.now ∷ [])))) }
        ensures unchanged { OnErr result (IsSame (state_in graph.new) (state_in graph.old)) }
        ensures stand { StandFor (state_in graph.new) self.new }
        ensures kept { OnErr result (HaveGrown self.old self.new) }
        ensures applied { IfOk result (λ applied. WasApplied edit.now applied graph.old self.old graph.new self.new) }
        ensures can_take_back { IfOk result (λ applied. CanTakeBack edit.now applied graph.new self.new) }
        ensures room_stays { KeepsRoom graph.old graph.new }
        ensures numbers_stay { KeepsNumbersOf graph.old graph.new }
        ensures marks_room_stays { KeepMarksRoom self.old self.new }
        ensures ticks { (size : ℕ) → IsSize (edit_edge edit.now) (state_in graph.old) (graph_join (state_in graph.old) (graph_of (edit.now ∷ []))) size → steps.new ≤ steps.old + 64 * size + 64 }
        ensures idle { IsAtMost (state_of (edit_kind edit.now)) (state_in graph.old (edit_edge edit.now)) → steps.new ≡ steps.old }
    {
        if is_raised(edit, graph) {
            return Ok(Applied {
                change: Change::Same,
                old: OldRecords {
                    records: Vec::new(self.alloc),
                    root: None,
                },
            });
        }
        let edge = edit.edge();
        let number = graph.make_room(&edge)?;
        if let Some(applied) = self.apply_short(edit, &edge, number, graph, steps)? {
            return Ok(applied);
        }
        self.apply_whole(edit, &edge, number, graph, steps)
    }

    // Applies an edit of an edge, which has room and this number, by a short walk. None where that is not enough; then all is as before, but that
    // the tables may have grown.
    fn apply_short<L: Ledger>(
        &mut self,
        edit: &Edit,
        edge: &Edge,
        number: usize,
        graph: &mut LiveGraph,
        steps: &mut Steps<L>,
    ) -> Result<Option<Applied>, NoMemory>
        requires edge { edit_edge edit.now ≡ edge.now }
        requires stand { StandFor (state_in graph.old) self.old }
        requires room { HasRoom graph.old (edit_edge edit.now) }
        requires number { IsNumberOf graph.old (edit_edge edit.now) number }
        ensures applied { IfOk result (λ r. IfSome r (λ applied. IsApplied edit.now applied graph.old self.old graph.new self.new)) }
        ensures can_take_back { IfOk result (λ r. IfSome r (λ applied. CanTakeBack edit.now applied graph.new self.new)) }
        ensures back { IfOk result (λ r. r ≡ None → IsBack graph.old self.old graph.new self.new) }
        ensures unchanged { OnErr result (IsBack graph.old self.old graph.new self.new) }
        ensures room_stays { KeepsRoom graph.old graph.new }
        ensures numbers_stay { KeepsNumbersOf graph.old graph.new }
        ensures marks_room_stays { KeepMarksRoom self.old self.new }
        ensures ticks { (size : ℕ) → IsSize (edit_edge edit.now) (state_in graph.old) (graph_join (state_in graph.old) (graph_of (edit.now ∷ []))) size → steps.new ≤ steps.old + 23 * size + 31 }
    {
        // The live edges are those whose state is Live.
        let _edges = graph.edge_count();
        let before = graph.few(&edge.target, steps);
        let apart = is_apart(
            &edge.target,
            &edge.source,
            &self.records,
            graph,
            &self.roots,
            steps,
        );
        let change = raise(edit, number, graph);
        match self.renew_if_short(edge, apart, &before, graph, steps) {
            Ok(Some(old)) => Ok(Some(Applied { change, old })),
            Ok(None) => {
                put_back(edit, change, graph);
                Ok(None)
            }
            Err(no_memory) => {
                put_back(edit, change, graph);
                Err(no_memory)
            }
        }
    }

    // Applies an edit of an edge, which has room and this number, by walks from the heads of trees.
    fn apply_whole<L: Ledger>(
        &mut self,
        edit: &Edit,
        edge: &Edge,
        number: usize,
        graph: &mut LiveGraph,
        steps: &mut Steps<L>,
    ) -> Result<Applied, NoMemory>
        requires edge { edit_edge edit.now ≡ edge.now }
        requires stand { StandFor (state_in graph.old) self.old }
        requires room { HasRoom graph.old (edit_edge edit.now) }
        requires number { IsNumberOf graph.old (edit_edge edit.now) number }
        ensures applied { IfOk result (λ applied. IsApplied edit.now applied graph.old self.old graph.new self.new) }
        ensures can_take_back { IfOk result (λ applied. CanTakeBack edit.now applied graph.new self.new) }
        ensures unchanged { OnErr result (IsBack graph.old self.old graph.new self.new) }
        ensures room_stays { KeepsRoom graph.old graph.new }
        ensures numbers_stay { KeepsNumbersOf graph.old graph.new }
        ensures marks_room_stays { KeepMarksRoom self.old self.new }
        ensures ticks { (size : ℕ) → IsSize (edit_edge edit.now) (state_in graph.old) (graph_join (state_in graph.old) (graph_of (edit.now ∷ []))) size → steps.new ≤ steps.old + 40 * size + 21 }
    {
        // The live edges are those whose state is Live.
        let _edges = graph.edge_count();
        let before = walk_from_ends(self.alloc, self.seed, edge, graph, steps)?;
        let change = raise(edit, number, graph);
        match self.renew(edge, &before, graph, steps) {
            Ok(old) => Ok(Applied { change, old }),
            Err(no_memory) => {
                put_back(edit, change, graph);
                Err(no_memory)
            }
        }
    }

    // Puts back what a renewal replaced.
    fn put_back(&mut self, old: &OldRecords)
        requires { CanRenewBack old.now self.old }
        ensures records { (v : Vertex) → kept_in self.new v ≡ put_back_in old.now.records.items (kept_in self.old) v }
        ensures roots { (v : Vertex) → holds self.new.roots v ≡ roots_back old.now.root (holds self.old.roots) v }
        ensures room_stays { KeepMarksRoom self.old self.new }
        ensures types { self.new.types ≡ self.old.types }
        ensures contexts { self.new.contexts ≡ self.old.contexts }
    {
        restore(&mut self.records, &old.records);
        if let Some((root, was_root)) = &old.root {
            set_root(&mut self.roots, root, *was_root);
        }
    }

    /// Takes back an edit that was applied, of which this is the receipt, where nothing has changed since. It takes no memory.
    pub fn take_back(&mut self, edit: &Edit, applied: &Applied, graph: &mut LiveGraph)
        requires can { CanTakeBack edit.now applied.now graph.old self.old }
        ensures graph { (before : Entries) (marks : KeptMarks) → WasApplied edit.now applied.now before marks graph.old self.old → IsSame (state_in graph.new) (state_in before) }
        ensures stand { (before : Entries) (marks : KeptMarks) → WasApplied edit.now applied.now before marks graph.old self.old → StandFor (state_in graph.new) self.new }
        ensures kept { (before : Entries) (marks : KeptMarks) → WasApplied edit.now applied.now before marks graph.old self.old → HaveGrown marks self.new }
        ensures room_stays { KeepsRoom graph.old graph.new }
        ensures numbers_stay { KeepsNumbersOf graph.old graph.new }
        ensures marks_room_stays { KeepMarksRoom self.old self.new }
    {
        put_back(edit, applied.change, graph);
        self.put_back(&applied.old);
    }
}
