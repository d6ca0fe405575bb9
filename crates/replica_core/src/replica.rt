ghost use Rattle.std.specs.Prelude.{◌≡◌, ◌+◌, ◌<◌, ◌≤◌, ℕ, [], ◌∷◌, ◌++◌, List, IsTrue, IfOk, OnOk, OnErr};
ghost use Rattle.grove_edits.specs.declared.act_fault.ActFault.{ActFault};
ghost use Rattle.grove_edits.specs.Graph.{graph, Ascends, IsCanonical, IsSame};
ghost use Rattle.graph_words.specs.States.{state_in};
ghost use Rattle.graph_words.specs.Whole.{AreLive};
ghost use Rattle.live_graph.specs.Live.{live};
ghost use Rattle.user_actions.specs.Flags.{opening_edges};
ghost use Rattle.user_actions.specs.Plan.{IsPlan};
ghost use Rattle.mark_incremental.specs.Standing.{StandFor};
ghost use Rattle.mark_incremental.specs.Changed.{AreChangedMarks};
ghost use Rattle.grove_answers.specs.Texts.{IsPrintText, IsCanonicalText};
ghost use Rattle.replica_core.specs.Content.{IsContent, no_edits, with_taken, with_block};
ghost use Rattle.replica_core.specs.Plain.{as_edits};
ghost use Rattle.replica_core.specs.Shown.{Shows};
ghost use Rattle.replica_core.specs.Step.{plan_of};
ghost use Rattle.replica_core.specs.Cost.{edit_cost, edits_cost};

use crate::planning::planned;
use crate::texts::append_print_text;
use graph_words::Steps;
use grove_answers::append_canonical_text;
use grove_edits::{Action, Answer, Command, Edit, EditList, Vertex};
use live_graph::LiveGraph;
use mark_incremental::Marks;
use seeded_hash::HashSeed;
use shared_edits::{CutEffects, SharedEdits};
use std::alloc::Global;
use std::marker::Model;
use std::sync::ledger::Ledger;
use text_parts::NoMemory;
use user_actions::{LiveView, OpeningFlags};

/// A live replica, which keeps the marks of its graph from edit to edit. Contracts see it as its `Content`: the canonical list of its
/// graph, and the edges that the block opened with. The marks follow from that: after each call, also one that found no memory, they
/// stand for its graph, and marks that stand for one graph keep the same records. How much room it has is not seen, nor by which numbers
/// types and contexts are kept.
#[derive(Drop)]
pub struct Replica {
    graph: LiveGraph,
    // Which edges were not Absent as the block opened.
    opening: OpeningFlags,
    marks: Marks,
    // What cuts deleted, so that cuts that delete the same share it. Contracts do not see it.
    cuts: CutEffects,
}

impl Model for Replica {
    ghost use Rattle.replica_core.specs.Content.{Content};
    ghost use Rattle.replica_core.specs.Kept.{flagged_content, AreMarksKept};

    ghost Value = { Content };

    ghost view = { λ replica. flagged_content replica.graph replica.opening };

    ghost invariant = { λ replica. AreMarksKept replica.graph replica.opening replica.marks };
}

impl Replica {
    /// The empty graph, in a block that opened so, for edits that are trusted.
    pub fn new(alloc: Global) -> Result<Replica, NoMemory>
        ensures empty { IfOk result (λ replica. replica ≡ no_edits) }
    {
        Replica::with_seed(alloc, HashSeed::FIXED)
    }

    /// The empty graph, in a block that opened so. What it looks up it finds by hashes under a seed.
    pub fn with_seed(alloc: Global, seed: HashSeed) -> Result<Replica, NoMemory>
        ensures empty { IfOk result (λ replica. replica ≡ no_edits) }
    {
        let graph = LiveGraph::with_seed(alloc, seed);
        let opening = OpeningFlags::of(alloc, &graph)?;
        let marks = Marks::with_seed(alloc, seed)?;
        Ok(Replica {
            graph,
            opening,
            marks,
            cuts: CutEffects::new(alloc),
        })
    }

    /// Opens a block: the opening edges are now those that are not Absent. The graph stays.
    pub fn begin_block(&mut self, _alloc: Global) -> Result<(), NoMemory>
        ensures opened { OnOk result (self.new ≡ with_block self.old) }
        ensures unchanged { OnErr result (self.new ≡ self.old) }
    {
        self.opening.renew(&self.graph)?;
        Ok(())
    }

    /// Takes an edit, and marks again what it concerns. What it asks is joined to the graph, so an edge that was deleted is not inserted
    /// again. Where memory runs out the graph and the kept records stay.
    pub fn apply<L: Ledger>(&mut self, edit: &Edit, steps: &mut Steps<L>) -> Result<(), NoMemory>
        ensures taken { OnOk result (self.new ≡ with_taken (edit.now ∷ []) self.old) }
        ensures unchanged { OnErr result (self.new ≡ self.old) }
        ensures bounded { steps.new ≤ steps.old + edit_cost self.old edit.now }
    {
        self.take(&[*edit], steps)
    }

    /// Takes edits, one after the other, all of them or none, and marks again what each concerns. Where memory runs out the graph and the
    /// kept records are as they were.
    pub fn apply_all<L: Ledger>(
        &mut self,
        edits: &EditList,
        steps: &mut Steps<L>,
    ) -> Result<(), NoMemory>
        ensures taken { OnOk result (self.new ≡ with_taken edits.now self.old) }
        ensures unchanged { OnErr result (self.new ≡ self.old) }
        ensures bounded { steps.new ≤ steps.old + edits_cost self.old edits.now }
    {
        self.take(edits.as_slice(), steps)
    }

    /// The edits of a step, which an entry of a journal may share with an earlier one.
    pub(crate) fn shared(
        &mut self,
        alloc: Global,
        command: &Command,
        edits: EditList,
    ) -> Result<SharedEdits, NoMemory>
        ensures edits { IfOk result (λ shared. shared ≡ edits) }
        ensures unchanged { self.new ≡ self.old }
    {
        match command {
            Command::Act(Action::Cut { edge }) => self.cuts.of_cut(alloc, *edge, edits),
            _ => SharedEdits::new(alloc, edits),
        }
    }

    pub(crate) fn take<L: Ledger>(
        &mut self,
        edits: &[Edit],
        steps: &mut Steps<L>,
    ) -> Result<(), NoMemory>
        ensures taken { OnOk result (self.new ≡ with_taken edits.now self.old) }
        ensures unchanged { OnErr result (self.new ≡ self.old) }
        ensures bounded { steps.new ≤ steps.old + edits_cost self.old edits.now }
    {
        self.marks.apply_all(edits, &mut self.graph, steps)
    }

    /// Takes edits as `apply_all` does, and answers the vertices that are judged otherwise than before, in vertex order: those of which the
    /// mode, the type or the mark is another, which came or went, and those that became the root of a cycle or ceased to be one.
    pub fn apply_all_telling<L: Ledger>(
        &mut self,
        edits: &EditList,
        steps: &mut Steps<L>,
    ) -> Result<Vec<Vertex>, NoMemory>
        ensures taken { OnOk result (self.new ≡ with_taken edits.now self.old) }
        ensures changed { IfOk result (λ changed. AreChangedMarks (graph self.old.edits) (graph self.new.edits) changed.items) }
        ensures unchanged { OnErr result (self.new ≡ self.old) }
        ensures bounded { steps.new ≤ steps.old + edits_cost self.old edits.now }
    {
        self.take_telling(edits.as_slice(), steps)
    }

    fn take_telling<L: Ledger>(
        &mut self,
        edits: &[Edit],
        steps: &mut Steps<L>,
    ) -> Result<Vec<Vertex>, NoMemory>
        ensures taken { OnOk result (self.new ≡ with_taken edits.now self.old) }
        ensures changed { IfOk result (λ changed. AreChangedMarks (graph self.old.edits) (graph self.new.edits) changed.items) }
        ensures unchanged { OnErr result (self.new ≡ self.old) }
        ensures bounded { steps.new ≤ steps.old + edits_cost self.old edits.now }
    {
        self.marks.apply_all_telling(edits, &mut self.graph, steps)
    }

    /// The edits of an author's action on the graph and what is answered, of which none is taken. An action that is refused has no edits.
    pub fn plan(
        &self,
        alloc: Global,
        author: u32,
        action: &Action,
    ) -> Result<(EditList, Answer), NoMemory>
        requires author { 0 < author }
        ensures plan { IfOk result (λ made. IsPlan (graph self.now.edits) self.now.opening author action.now made.0 made.1) }
        ensures edits { IfOk result (λ made. made.0 ≡ as_edits (plan_of self.now author action.now).edits) }
        ensures answer { IfOk result (λ made. made.1 ≡ (plan_of self.now author action.now).answer) }
    {
        planned(alloc, &self.view(), author, action)
    }

    /// Plans an author's action on the graph, and takes the edits of the plan. It answers them, and what the plan answers. An action that
    /// is refused has no edits.
    pub fn act<L: Ledger>(
        &mut self,
        alloc: Global,
        author: u32,
        action: &Action,
        steps: &mut Steps<L>,
    ) -> Result<(EditList, Answer), NoMemory>
        requires author { 0 < author }
        ensures plan { IfOk result (λ acted. IsPlan (graph self.old.edits) self.old.opening author action.now acted.0 acted.1) }
        ensures edits { IfOk result (λ acted. acted.0 ≡ as_edits (plan_of self.old author action.now).edits) }
        ensures answer { IfOk result (λ acted. acted.1 ≡ (plan_of self.old author action.now).answer) }
        ensures taken { IfOk result (λ acted. self.new ≡ with_taken acted.0 self.old) }
        ensures refused { (fault : ActFault) → IfOk result (λ acted. acted.1 ≡ Answer.Refused fault → (acted.0 ≡ []) × (self.new ≡ self.old)) }
        ensures unchanged { OnErr result (self.new ≡ self.old) }
        ensures bounded { steps.new ≤ steps.old + edits_cost self.old (as_edits (plan_of self.old author action.now).edits) }
    {
        let (edits, answer) = self.plan(alloc, author, action)?;
        self.apply_all(&edits, steps)?;
        Ok((edits, answer))
    }

    /// The canonical list of the graph.
    pub fn in_order(&self, alloc: Global) -> Result<EditList, NoMemory>
        ensures list { IfOk result (λ list. list ≡ self.now.edits) }
        ensures canonical { IsCanonical (graph self.now.edits) self.now.edits }
        ensures content { IsContent self.now }
    {
        Ok(self.graph.in_order(alloc)?)
    }

    /// Whether the graph has this canonical list, told without making its own. It may answer false of the graph's own list where a name has
    /// several edges.
    pub fn is_listed(&self, alloc: Global, edits: &[Edit]) -> Result<bool, NoMemory>
        requires { Ascends edits.now }
        ensures list { IfOk result (λ listed. IsTrue listed → edits.now ≡ self.now.edits) }
    {
        Ok(self.graph.is_listed(alloc, edits)?)
    }

    /// Appends the print text of the graph, by the marks that are kept: nothing is judged again.
    pub fn print(&self, alloc: Global, out: &mut Vec<u8>) -> Result<(), NoMemory>
        ensures appended { OnOk result ((text : List ℕ) × IsPrintText (graph self.now.edits) text × (out.new.items ≡ out.old.items ++ text)) }
        ensures unchanged { OnErr result (out.new.items ≡ out.old.items) }
    {
        let edits = self.in_order(alloc)?;
        append_print_text(alloc, edits, self.graph.seed(), self.marks(), out)
    }

    /// Appends the canonical text of the graph.
    pub fn canonical(&self, alloc: Global, out: &mut Vec<u8>) -> Result<(), NoMemory>
        ensures appended { OnOk result ((text : List ℕ) × IsCanonicalText (graph self.now.edits) text × (out.new.items ≡ out.old.items ++ text)) }
        ensures unchanged { OnErr result (out.new.items ≡ out.old.items) }
    {
        let edits = self.in_order(alloc)?;
        append_canonical_text(&edits, out)?;
        Ok(())
    }

    /// The marks of the graph: the kept record of each vertex, by the numbers of their tables, is what marking the whole graph says of it,
    /// and there is none of what is no vertex.
    pub fn marks(&self) -> &Marks
        ensures { StandFor (graph self.now.edits) result.now }
    {
        &self.marks
    }

    /// The graph, lent to what reads live graphs, as undoing does. Its states are those of the canonical list, and so are its live edges.
    pub fn graph(&self) -> &LiveGraph
        ensures states { IsSame (state_in result.now) (graph self.now.edits) }
        ensures live { AreLive (graph self.now.edits) (live result.now) }
    {
        // The live edges are those whose state is Live.
        let _edges = self.graph.edge_count();
        &self.graph
    }

    /// What plans read.
    pub(crate) fn view(&self) -> LiveView<'_>
        ensures { Shows (state_in result.graph.now) (live result.graph.now) (live result.graph.now) (opening_edges result.graph.now result.opening.now) self.now }
    {
        // The live edges are those whose state is Live.
        let _edges = self.graph.edge_count();
        LiveView {
            graph: &self.graph,
            opening: &self.opening,
        }
    }
}
