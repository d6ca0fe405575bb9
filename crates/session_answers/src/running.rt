ghost use Rattle.std.specs.Prelude.{◌≡◌, ℕ, ◌+◌, ◌<◌, ◌^◌, [], length, take, slice_get, Some, IfOk};
ghost use Rattle.std.specs.List.{AllByRecursion, count_by};
ghost use Rattle.session_script.specs.Session.{IsSession, is_send};
ghost use Rattle.session_run.specs.Asked.{IsNumberIn};
ghost use Rattle.session_run.specs.Run.{CanRun};
ghost use Rattle.session_answers.specs.Numbers.{IsNumberInSession};
ghost use Rattle.session_answers.specs.Running.{IsBehind, HasLoaded, HasRunBlock, HasShown};

use crate::block::run_on_boards;
use crate::counting::{can_number, count_lines, first_numbers};
use crate::opened::open_block_on_each;
use crate::replicas::{append_journals, apply, empty_replicas};
use crate::showing::append_sections;
use author_desk::Asked;
use grove_edits::Edit;
use replica_core::Replica;
use seeded_hash::HashSeed;
use session_report::{JournalList, append_block, append_show_heading};
use session_script::{Block, Item, Line, Session};
use std::alloc::Global;
use std::sync::Wait;
use std::thread::Threads;
use text_parts::NoMemory;

/// A session some of whose items are over: what its replicas have taken, and what the items left.
#[derive(Drop)]
pub(crate) struct Running {
    pub(crate) replicas: Vec<Replica>,
    pub(crate) journals: JournalList<Replica>,
    /// The report so far.
    pub(crate) text: Vec<u8>,
    /// How many blocks there were.
    pub(crate) blocks: u64,
    /// How many `send` lines there were.
    pub(crate) sends: u32,
    /// How many shows there were.
    pub(crate) shows: u64,
    /// The number of each declared author's next line.
    pub(crate) calls: Vec<u64>,
}

impl Running {
    /// The session before its first item.
    pub(crate) fn new(alloc: Global, seed: HashSeed, session: &Session) -> Result<Running, NoMemory>
        ensures { IfOk result (IsBehind session.now []) }
    {
        Ok(Running {
            replicas: empty_replicas(alloc, seed, session.replicas.len())?,
            journals: JournalList::new(alloc),
            text: Vec::new(alloc),
            blocks: 0,
            sends: 0,
            shows: 0,
            calls: first_numbers(alloc, &session.authors)?,
        })
    }

    /// Runs the item at an index, once those before it are over.
    pub(crate) fn run_item<R: Threads + Wait + Sync, G: Asked>(
        self,
        rt: &R,
        alloc: Global,
        session: &Session,
        index: usize,
        item: &Item,
        gate: &G,
    ) -> Result<Running, NoMemory>
        requires session { IsSession session.now }
        requires item { slice_get session.now.items index ≡ Some item.now }
        requires behind { IsBehind session.now (take index session.now.items) self }
        requires asked { (author number : ℕ) → IsNumberInSession session.now author number → G.may_ask gate.now author number }
        ensures { IfOk result (IsBehind session.now (take (index + 1) session.now.items)) }
    {
        match item {
            Item::Load { replica, edit } => self.load(alloc, *replica, edit),
            Item::Block(block) => self.run_block(rt, alloc, session, block, gate),
            Item::Show => self.show(alloc, session),
        }
    }

    fn load(mut self, alloc: Global, replica: u64, edit: &Edit) -> Result<Running, NoMemory>
        requires { replica < length self.replicas.items }
        ensures { IfOk result (HasLoaded replica edit.now self) }
    {
        apply(alloc, &mut self.replicas[replica as usize], edit)?;
        Ok(self)
    }

    fn run_block<R: Threads + Wait + Sync, G: Asked>(
        self,
        rt: &R,
        alloc: Global,
        session: &Session,
        block: &Block,
        gate: &G,
    ) -> Result<Running, NoMemory>
        requires session { IsSession session.now }
        requires lines { AllByRecursion (CanRun session.now.authors (length session.now.replicas)) block.now.lines }
        requires replicas { length self.replicas.items ≡ length session.now.replicas }
        requires calls { length self.calls.items ≡ length session.now.authors }
        requires asked { (author number : ℕ) → IsNumberIn session.now.authors self.calls.items block.now.lines author number → G.may_ask gate.now author number }
        requires few_blocks { self.blocks < 64 }
        requires few_sends { self.sends + 1 + count_by is_send block.now.lines < 2 ^ 32 }
        ensures { IfOk result (HasRunBlock session.now block.now self) }
    {
        let Running {
            replicas,
            mut journals,
            mut text,
            blocks,
            sends,
            shows,
            calls,
        } = self;
        // So many lines have no place in memory.
        if !can_number(&calls, block.lines.len()) {
            return Err(NoMemory);
        }
        let behind = count_lines(
            alloc,
            &calls,
            session.authors.as_slice(),
            block.lines.as_slice(),
        )?;
        let (replicas, lists) = open_block_on_each(
            alloc,
            replicas,
            &session.authors,
            block.lines.as_slice(),
        )?;
        let number = blocks + 1;
        let (replicas, made, _held) = run_on_boards(
            rt,
            alloc,
            replicas,
            &lists,
            session,
            block,
            sends + 1,
            &calls,
            gate,
        )?;
        append_block(number, session.replicas.as_slice(), &made, &mut text)?;
        append_journals(number, made, &mut journals)?;
        Ok(Running {
            replicas,
            journals,
            text,
            blocks: number,
            sends: sends + sends_in(block),
            shows,
            calls: behind,
        })
    }

    fn show(mut self, alloc: Global, session: &Session) -> Result<Running, NoMemory>
        requires { self.shows < 8 }
        ensures { IfOk result (HasShown session.now self) }
    {
        self.shows += 1;
        append_show_heading(self.shows, &mut self.text)?;
        append_sections(
            alloc,
            session.replicas.as_slice(),
            &self.replicas,
            &mut self.text,
        )?;
        Ok(self)
    }
}

// How many `send` lines a block has.
fn sends_in(block: &Block) -> u32
    requires { count_by is_send block.now.lines < 2 ^ 32 }
    ensures { result ≡ count_by is_send block.now.lines }
{
    count_sends(block.lines.as_slice()) as u32
}

fn count_sends(lines: &[Line]) -> usize
    ensures { result ≡ count_by is_send lines.now }
{
    lines.iter().filter(|line| is_send_line(line)).count()
}

fn is_send_line(line: &Line) -> bool
    ensures { result ≡ is_send line.now }
{
    match line {
        Line::Author { .. } => false,
        Line::Send(_) => true,
    }
}
