ghost use Rattle.std.specs.Prelude.{◌≡◌, ◌≤◌, ◌⊎◌, [], length, vec_len, vec_capacity, IsTrue, IfOk, OnOk, OnErr};
ghost use Rattle.graph_words.specs.States.{state_in, is_present as is_present_state};
ghost use Rattle.graph_words.specs.Live.{holds_edge};
ghost use Rattle.user_actions.specs.Flags.{opening_edges, present_flags, first_flags, AreTrue};
ghost use Rattle.user_actions.specs.Good.{AreOpening};
ghost use Rattle.user_actions.specs.Lists.{ArePresent};

use edge_lattice::State;
use grove_edits::Edge;
use live_graph::LiveGraph;
use std::alloc::Global;
use std::marker::Model;
use text_parts::NoMemory;

/// Which edges of a live graph were not Absent when the flags were made: a flag for each number that an edge had then. They serve as long
/// as the numbers of that graph stay, and take a byte for each edge. Contracts see the flags.
#[derive(Debug, Drop)]
pub struct OpeningFlags {
    flags: Vec<bool>,
    // Whether it is known that all are true.
    all_true: bool,
}

impl Model for OpeningFlags {
    ghost use Rattle.std.specs.Prelude.{Bool, List, IsTrue};
    ghost use Rattle.user_actions.specs.Flags.{AreTrue};

    ghost Value = { List Bool };

    ghost view = { λ flags. flags.flags.items };

    ghost invariant = { λ flags. IsTrue flags.all_true → AreTrue flags.flags.items };
}

// Takes all flags out, unless all are true.
fn keep_true(flags: &mut Vec<bool>, all_true: bool)
    requires { IsTrue all_true → AreTrue flags.old.items }
    ensures known { AreTrue flags.new.items }
    ensures kept { (flags.new.items ≡ flags.old.items) ⊎ (flags.new.items ≡ []) }
    ensures room { vec_capacity flags.new ≡ vec_capacity flags.old }
{
    if !all_true {
        flags.clear();
    }
}

// Puts the flags of the edges that have none behind the others, and answers whether all are true.
fn append_flags(flags: &mut Vec<bool>, graph: &LiveGraph) -> bool
    requires known { AreTrue flags.old.items }
    requires told { flags.old.items ≡ first_flags graph.now (vec_len flags.old) }
    requires room { length graph.now ≤ vec_capacity flags.old }
    ensures flags { flags.new.items ≡ present_flags graph.now }
    ensures known { IsTrue result → AreTrue flags.new.items }
{
    let mut all_true = true;
    for number in flags.len()..graph.edge_count() {
        let present = is_present(graph.state_at(number));
        flags.push_reserved(present);
        all_true = all_true && present;
    }
    all_true
}

impl OpeningFlags {
    /// Keeps which edges of a graph are not Absent now.
    pub fn of(alloc: Global, graph: &LiveGraph) -> Result<OpeningFlags, NoMemory>
        ensures flags { IfOk result (λ flags. flags ≡ present_flags graph.now) }
        ensures opening { IfOk result (λ flags. ArePresent (state_in graph.now) (opening_edges graph.now flags)) }
    {
        let mut flags = OpeningFlags {
            flags: Vec::new(alloc),
            all_true: true,
        };
        flags.renew(graph)?;
        Ok(flags)
    }

    /// Keeps which edges of the graph are not Absent now. No edge that was not Absent gets Absent, so flags that are all true stay, and only
    /// numbers that came since get theirs.
    pub fn renew(&mut self, graph: &LiveGraph) -> Result<(), NoMemory>
        requires within { length self.old ≤ length graph.now }
        requires opened { AreOpening (state_in graph.now) (opening_edges graph.now self.old) }
        ensures flags { OnOk result (self.new ≡ present_flags graph.now) }
        ensures opening { OnOk result (ArePresent (state_in graph.now) (opening_edges graph.now self.new)) }
        ensures unchanged { OnErr result (self.new ≡ self.old) }
    {
        let count = graph.edge_count();
        self.flags.reserve(count.saturating_sub(self.flags.len()))?;
        keep_true(&mut self.flags, self.all_true);
        self.all_true = append_flags(&mut self.flags, graph);
        Ok(())
    }

    /// Whether an edge of the graph was not Absent when the flags were made.
    pub fn was_open(&self, graph: &LiveGraph, edge: &Edge) -> bool
        ensures { result ≡ holds_edge edge.now (opening_edges graph.now self.now) }
    {
        let Some(number) = graph.number(edge) else {
            return false;
        };
        // An edge that got its number later has no flag.
        number < self.flags.len() && self.flags[number]
    }
}

// Whether an edit has named an edge with this state.
fn is_present(state: State) -> bool
    ensures { result ≡ is_present_state state }
{
    state != State::Absent
}
