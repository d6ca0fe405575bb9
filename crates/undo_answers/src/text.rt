ghost use Rattle.std.specs.Prelude.{◌≡◌, ◌<◌, ◌≤◌, ◌++◌, ℕ, List, length, take, IfOk, OnOk};
ghost use Rattle.grove_edits.specs.Graph.{graph};
ghost use Rattle.graph_words.specs.States.{state_in};
ghost use Rattle.grove_undo.specs.Change.{IsChangeOf, IsOfEdits};
ghost use Rattle.grove_answers.specs.Texts.{IsPrintText};
ghost use Rattle.session_script.specs.Session.{IsSession};
ghost use Rattle.replica_core.specs.Content.{with_taken};
ghost use Rattle.undo_answers.specs.Fit.{IsFit};
ghost use Rattle.undo_answers.specs.Course.{Course as CourseOf};
ghost use Rattle.undo_answers.specs.UndoText.{Answers, IsUndoText, IsAnswerTo, IsTextOf};
ghost use Rattle.undo_answers.specs.Kept.{AnswersLast, IsWithin, StandsFor};

use crate::course::{Acted, Course};
use crate::taking::take;
use crate::writing::{append_nothing, append_refused, append_undone};
use graph_joins::graph_of;
use grove_edits::{Edit, EditList};
use grove_undo::{Change, UndoView, change_of, undo};
use live_graph::LiveGraph;
use replica_core::Replica;
use seeded_hash::HashSeed;
use session_script::Session;
use std::alloc::Global;
use text_parts::NoMemory;

/// The text of `undo` for an author, of a session at one replica in which nothing is sent. The session is run in the order of its text, and
/// the author's last action that was not refused is undone: a line tells how many edits that takes, or why it is refused, or that there is
/// no such action, and the print text follows. What it looks up it finds by hashes under a seed.
pub fn undo_text(
    alloc: Global,
    seed: HashSeed,
    session: &Session,
    author: u32,
) -> Result<Vec<u8>, NoMemory>
    requires session { IsSession session.now }
    requires fit { IsFit session.now }
    requires author { 0 < author }
    ensures { IfOk result (λ text. IsUndoText session.now author text.items) }
{
    let mut course = Course::of(alloc, seed, session.items.as_slice(), author)?;
    text_in(alloc, seed, &mut course, author)
}

fn text_in(
    alloc: Global,
    seed: HashSeed,
    course: &mut Course,
    author: u32,
) -> Result<Vec<u8>, NoMemory>
    requires author { 0 < author }
    requires within { IsWithin course.old.taken course.old.last }
    ensures { (of : CourseOf) → StandsFor course.old of → IfOk result (λ text. IsTextOf of author text.items) }
{
    let mut text = Vec::new(alloc);
    append_text(alloc, seed, course, author, &mut text)?;
    Ok(text)
}

fn append_text(
    alloc: Global,
    seed: HashSeed,
    course: &mut Course,
    author: u32,
    out: &mut Vec<u8>,
) -> Result<(), NoMemory>
    requires author { 0 < author }
    requires within { IsWithin course.old.taken course.old.last }
    ensures { (of : CourseOf) → StandsFor course.old of
        → OnOk result ((text : List ℕ) × IsTextOf of author text × (out.new.items ≡ out.old.items ++ text)) }
{
    let undoing = append_answer(alloc, seed, author, &course.taken, &course.last, out)?;
    append_print(alloc, &mut course.replica, &undoing, out)?;
    Ok(())
}

// Takes the edits of undoing, and appends the print text.
fn append_print(
    alloc: Global,
    replica: &mut Replica,
    undoing: &EditList,
    out: &mut Vec<u8>,
) -> Result<(), NoMemory>
    ensures { OnOk result ((print : List ℕ) × IsPrintText (graph (with_taken undoing.now replica.old).edits) print × (out.new.items ≡ out.old.items ++ print)) }
{
    take(replica, undoing)?;
    replica.print(alloc, out)?;
    Ok(())
}

// Appends the line that tells what undoing does, and answers its edits.
fn append_answer(
    alloc: Global,
    seed: HashSeed,
    author: u32,
    taken: &EditList,
    last: &Option<Acted>,
    out: &mut Vec<u8>,
) -> Result<EditList, NoMemory>
    requires author { 0 < author }
    requires within { IsWithin taken.now last.now }
    ensures { IfOk result (λ undoing. (line : List ℕ) × (out.new.items ≡ out.old.items ++ line) × AnswersLast taken.now last.now author undoing line) }
{
    match last {
        None => append_nothing(alloc, out),
        Some(acted) => append_undoing(alloc, seed, author, taken.as_slice(), acted, out),
    }
}

fn append_undoing(
    alloc: Global,
    seed: HashSeed,
    author: u32,
    taken: &[Edit],
    acted: &Acted,
    out: &mut Vec<u8>,
) -> Result<EditList, NoMemory>
    requires author { 0 < author }
    requires within { acted.now.before ≤ length taken.now }
    ensures { IfOk result (λ undoing. (line : List ℕ) × (out.new.items ≡ out.old.items ++ line)
        × IsAnswerTo (graph (take acted.now.before taken.now)) acted.now.edits (graph taken.now) author undoing line) }
{
    let change = change_by(alloc, seed, taken, acted)?;
    append_undoing_of(alloc, seed, author, taken, &change, out)
}

// What an action changed in the graph before it.
fn change_by(
    alloc: Global,
    seed: HashSeed,
    taken: &[Edit],
    acted: &Acted,
) -> Result<Change, NoMemory>
    requires { acted.now.before ≤ length taken.now }
    ensures { IfOk result (IsChangeOf (graph (take acted.now.before taken.now)) acted.now.edits) }
{
    let before = &taken[..acted.before];
    change_of(alloc, seed, before, acted.edits.as_slice())
}

fn append_undoing_of(
    alloc: Global,
    seed: HashSeed,
    author: u32,
    taken: &[Edit],
    change: &Change,
    out: &mut Vec<u8>,
) -> Result<EditList, NoMemory>
    requires author { 0 < author }
    requires change { IsOfEdits change.now }
    ensures { IfOk result (λ undoing. (line : List ℕ) × (out.new.items ≡ out.old.items ++ line)
        × Answers (graph taken.now) author change.now undoing line) }
{
    let graph = graph_of(alloc, seed, taken)?;
    append_undoing_in(alloc, &graph, author, change, out)
}

fn append_undoing_in(
    alloc: Global,
    graph: &LiveGraph,
    author: u32,
    change: &Change,
    out: &mut Vec<u8>,
) -> Result<EditList, NoMemory>
    requires author { 0 < author }
    requires change { IsOfEdits change.now }
    ensures { IfOk result (λ undoing. (line : List ℕ) × (out.new.items ≡ out.old.items ++ line)
        × Answers (state_in graph.now) author change.now undoing line) }
{
    graph.known();
    match undo(alloc, graph, author, change) {
        Ok(undoing) => append_undone(undoing, out),
        Err(fault) => append_refused(alloc, fault, out),
    }
}
