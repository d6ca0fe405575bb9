ghost use Rattle.std.specs.Prelude.{◌≡◌, ◌<◌, IfOk};
ghost use Rattle.graph_words.specs.States.{state_in};
ghost use Rattle.mark_incremental.specs.Standing.{StandFor};
ghost use Rattle.mark_incremental.specs.Applying.{CanTakeBack};

use edit_text::read_line;
use graph_words::Steps;
use grove_edits::Edit;
use grove_sorts::Version;
use live_graph::LiveGraph;
use mark_incremental::*;
use mark_step::{Mark, Mode};
use std::alloc::Global;
use std::marker::Brand;
use std::sync::ledger::{Blank, Ledger};
use std::test::Fail;
use type_core::{TypeId, TypeTable};

// A graph and its marks. What has one drops it by a call, so that the parts are let go in one place.
#[derive(Drop)]
struct Live {
    graph: LiveGraph,
    marks: Marks,
}

// What is wanted of a vertex and its type, in words, and its mark, where it has a record.
type Told = Option<(&'static str, &'static str, Mark)>;

fn mode_word(types: &TypeTable, mode: Option<Mode>) -> &'static str {
    match mode {
        None => "-",
        Some(Mode::Syn) => "syn",
        Some(Mode::Ana(t)) if t == types.num() => "ana:num",
        Some(Mode::Ana(_)) => "ana:other",
    }
}

fn type_word(types: &TypeTable, typ: Option<TypeId>) -> &'static str {
    match typ {
        None => "-",
        Some(t) if t == types.unknown() => "?",
        Some(t) if t == types.num() => "num",
        Some(_) => "other",
    }
}

fn empty(alloc: Global) -> Result<Live, Fail>
    ensures stand { IfOk result (λ live. StandFor (state_in live.graph) live.marks) }
{
    let marks = Marks::new(alloc)?;
    Ok(Live {
        graph: LiveGraph::new(alloc),
        marks,
    })
}

fn edit(line: &str) -> Result<Edit, Fail> {
    Ok(read_line(Version::One, line.as_bytes())?)
}

impl Live {
    fn apply<L: Ledger>(&mut self, line: &str, steps: &mut Steps<L>) -> Result<(), Fail>
        requires stand { StandFor (state_in self.old.graph) self.old.marks }
        ensures stand { StandFor (state_in self.new.graph) self.new.marks }
    {
        let edit = edit(line)?;
        self.marks.apply(&edit, &mut self.graph, steps)?;
        Ok(())
    }

    // What is told of the vertex to which the edge of a line leads.
    fn told(&self, line: &str) -> Result<Told, Fail> {
        let edge = edit(line)?.edge();
        let types = self.marks.types();
        let Some(record) = self.marks.kept(&edge.target) else {
            return Ok(None);
        };
        let wanted = mode_word(types, record.mode);
        Ok(Some((wanted, type_word(types, record.typ), record.mark)))
    }

    fn take_back(&mut self, edit: &Edit, applied: &Applied)
        requires can { CanTakeBack edit.now applied.now self.old.graph self.old.marks }
    {
        self.marks.take_back(edit, applied, &mut self.graph);
    }

    // Whether there was memory for all of these edits.
    fn apply_all<L: Ledger>(&mut self, edits: &[Edit], steps: &mut Steps<L>) -> bool
        requires stand { StandFor (state_in self.old.graph) self.old.marks }
    {
        let applied = self.marks.apply_all(edits, &mut self.graph, steps);
        applied.is_ok()
    }
}

fn take_counting<L: Ledger>(live: &mut Live, lines: &[&str], blank: Blank) -> Result<(), Fail>
    requires name { blank.name ≡ L.name }
    requires parts { blank.parts ≡ L.parts }
    requires some { 0 < blank.parts }
    requires stand { StandFor (state_in live.old.graph) live.old.marks }
    ensures stand { StandFor (state_in live.new.graph) live.new.marks }
{
    let mut steps = Steps::<L>::new(blank);
    for line in lines {
        live.apply(line, &mut steps)?;
    }
    Ok(())
}

// Applies the edits of lines.
fn take(live: &mut Live, lines: &[&str]) -> Result<(), Fail>
    requires stand { StandFor (state_in live.old.graph) live.old.marks }
    ensures stand { StandFor (state_in live.new.graph) live.new.marks }
{
    take_counting::<Brand>(live, lines, Blank::new(1))
}

// Applies an edit, and answers its receipt.
fn applied_counting<L: Ledger>(live: &mut Live, edit: &Edit, blank: Blank) -> Result<Applied, Fail>
    requires name { blank.name ≡ L.name }
    requires parts { blank.parts ≡ L.parts }
    requires some { 0 < blank.parts }
    requires stand { StandFor (state_in live.old.graph) live.old.marks }
    ensures can { IfOk result (λ applied. CanTakeBack edit.now applied live.new.graph live.new.marks) }
{
    let mut steps = Steps::<L>::new(blank);
    let applied = live.marks.apply(edit, &mut live.graph, &mut steps)?;
    Ok(applied)
}

fn all_counting<L: Ledger>(live: &mut Live, edits: &[Edit], blank: Blank) -> bool
    requires name { blank.name ≡ L.name }
    requires parts { blank.parts ≡ L.parts }
    requires some { 0 < blank.parts }
    requires stand { StandFor (state_in live.old.graph) live.old.marks }
{
    let mut steps = Steps::<L>::new(blank);
    live.apply_all(edits, &mut steps)
}

fn told_once_taken(live: &mut Live, lines: &[&str], line: &str) -> Result<Told, Fail>
    requires stand { StandFor (state_in live.old.graph) live.old.marks }
{
    take(live, lines)?;
    live.told(line)
}

fn told_after(alloc: Global, lines: &[&str], line: &str) -> Result<Told, Fail> {
    let mut live = empty(alloc)?;
    let told = told_once_taken(&mut live, lines, line);
    drop(live);
    told
}

// What is told while an edit is applied, and once it is taken back.
fn told_around(live: &mut Live, edit: &Edit, line: &str) -> Result<(Told, Told), Fail>
    requires stand { StandFor (state_in live.old.graph) live.old.marks }
{
    let applied = applied_counting::<Brand>(live, edit, Blank::new(1))?;
    let told = live.told(line)?;
    live.take_back(edit, &applied);
    Ok((told, live.told(line)?))
}

// What is told while the edit of one more line is applied, and once that is taken back.
fn told_with_one_more(
    live: &mut Live,
    lines: &[&str],
    edited: &str,
    line: &str,
) -> Result<(Told, Told), Fail>
    requires stand { StandFor (state_in live.old.graph) live.old.marks }
{
    take(live, lines)?;
    let edit = edit(edited)?;
    told_around(live, &edit, line)
}

fn told_with(
    alloc: Global,
    lines: &[&str],
    edited: &str,
    line: &str,
) -> Result<(Told, Told), Fail> {
    let mut live = empty(alloc)?;
    let told = told_with_one_more(&mut live, lines, edited, line);
    drop(live);
    told
}

fn edits_of(alloc: Global, lines: &[&str]) -> Result<Vec<Edit>, Fail> {
    let mut edits = Vec::new(alloc);
    for line in lines {
        edits.push(edit(line)?)?;
    }
    Ok(edits)
}

// What is told once all edits of further lines are applied, or none for want of memory, and whether they are.
fn told_once_applied(
    alloc: Global,
    live: &mut Live,
    further: &[&str],
    line: &str,
) -> Result<(bool, Told), Fail>
    requires stand { StandFor (state_in live.old.graph) live.old.marks }
{
    let edits = edits_of(alloc, further)?;
    let applied = all_counting::<Brand>(live, &edits, Blank::new(1));
    Ok((applied, live.told(line)?))
}

fn told_once_all_taken(
    alloc: Global,
    live: &mut Live,
    lines: &[&str],
    further: &[&str],
    line: &str,
) -> Result<(bool, Told), Fail>
    requires stand { StandFor (state_in live.old.graph) live.old.marks }
{
    take(live, lines)?;
    told_once_applied(alloc, live, further, line)
}

fn told_after_all(
    alloc: Global,
    lines: &[&str],
    further: &[&str],
    line: &str,
) -> Result<(bool, Told), Fail> {
    let mut live = empty(alloc)?;
    let told = told_once_all_taken(alloc, &mut live, lines, further, line);
    drop(live);
    told
}

const FUNCTION: [&str; 4] = [
    "+1.2 0.0 root main 1.1 lam",
    "+1.4 1.1 lam param 1.3 pvar:x",
    "+2.2 1.1 lam param 2.1 pvar:y",
    "+1.6 1.1 lam body 1.5 var:x",
];

#[test]
fn a_use_is_free_under_a_conflict(rt: HostRuntime) -> Result<(), Fail> {
    let told = told_after(rt.alloc(), &FUNCTION, FUNCTION[3])?;
    assert!(rt; told == Some(("syn", "?", Mark::Free)));
    Ok(())
}

#[test]
fn a_use_is_bound_while_the_conflict_is_cut(rt: HostRuntime) -> Result<(), Fail> {
    let cut = "-2.2 1.1 lam param 2.1 pvar:y";
    let (cut, back) = told_with(rt.alloc(), &FUNCTION, cut, FUNCTION[3])?;
    assert!(rt; cut == Some(("syn", "?", Mark::None)));
    assert!(rt; back == Some(("syn", "?", Mark::Free)));
    Ok(())
}

#[test]
fn a_fourth_child_of_a_conflict_comes_and_goes(rt: HostRuntime) -> Result<(), Fail> {
    let fourth = "+4.2 1.1 lam body 4.1 var:x";
    let lines = [
        FUNCTION[0],
        FUNCTION[1],
        FUNCTION[3],
        "+2.2 1.1 lam body 2.1 num:1",
        "+3.2 1.1 lam body 3.1 num:2",
        fourth,
    ];
    let cut = "-4.2 1.1 lam body 4.1 var:x";
    let (alone, back) = told_with(rt.alloc(), &lines, cut, fourth)?;
    assert!(rt; alone == Some(("syn", "?", Mark::Free)));
    assert!(rt; back == Some(("syn", "?", Mark::None)));
    let (first, first_back) = told_with(rt.alloc(), &lines, cut, FUNCTION[3])?;
    assert!(rt; first == Some(("syn", "?", Mark::None)));
    assert!(rt; first_back == Some(("syn", "?", Mark::None)));
    Ok(())
}

#[test]
fn a_shared_vertex_is_judged_by_itself(rt: HostRuntime) -> Result<(), Fail> {
    let left = "+1.4 1.1 plus left 1.3 num:7";
    let shared = "+1.5 1.1 plus right 1.3 num:7";
    let lines = ["+1.2 0.0 root main 1.1 plus", left];
    let (alone, back) = told_with(rt.alloc(), &lines, shared, left)?;
    assert!(rt; alone == Some(("syn", "num", Mark::None)));
    assert!(rt; back == Some(("ana:num", "num", Mark::None)));
    Ok(())
}

#[test]
fn edits_are_applied_all_or_none(rt: HostRuntime) -> Result<(), Fail> {
    let cut = "-2.2 1.1 lam param 2.1 pvar:y";
    let lines = [FUNCTION[0], FUNCTION[1], FUNCTION[2]];
    let further = [FUNCTION[3], FUNCTION[1], cut, cut];
    let (applied, told) = told_after_all(rt.alloc(), &lines, &further, FUNCTION[3])?;
    if applied {
        assert!(rt; told == Some(("syn", "?", Mark::None)));
    } else {
        assert!(rt; told == None);
    }
    Ok(())
}

#[test]
fn two_moves_made_apart_leave_a_cycle(rt: HostRuntime) -> Result<(), Fail> {
    let moved = "+2.1 1.5 snd of 1.3 fst";
    let lines = [
        "+1.2 0.0 root main 1.1 pair",
        "-1.4 1.1 pair first 1.3 fst",
        "-1.6 1.1 pair second 1.5 snd",
        moved,
        "+3.1 1.3 fst of 1.5 snd",
    ];
    let told = told_after(rt.alloc(), &lines, moved)?;
    assert!(rt; told == Some(("syn", "?", Mark::None)));
    Ok(())
}
