ghost use Rattle.std.specs.Prelude.{◌≡◌, ◌==◌, ◌&&◌, not, IfOk, OnOk};
ghost use Rattle.undo_answers.specs.Course.{Course as CourseOf, at_start, after_action, after_line, after_lines, after_item, after_items, is_refused, loaded};
ghost use Rattle.undo_answers.specs.Kept.{StandsFor};

use crate::taking::{act, take};
use grove_edits::{Action, Answer, Edit, EditList};
use replica_core::Replica;
use seeded_hash::HashSeed;
use session_script::{Item, Line};
use shared_edits::SharedEdits;
use std::alloc::Global;
use text_parts::NoMemory;

/// An action that was done.
#[derive(Drop)]
pub(crate) struct Acted {
    /// How many edits the replica had taken before.
    pub(crate) before: usize,
    pub(crate) edits: SharedEdits,
}

/// A session at one replica some of whose items are over.
#[derive(Drop)]
pub(crate) struct Course {
    pub(crate) replica: Replica,
    /// All edits that the replica took, in order.
    pub(crate) taken: EditList,
    /// An author's last action that was not refused.
    pub(crate) last: Option<Acted>,
}

impl Course {
    /// Runs items one after the other, on a replica that is empty before the first. It finds what it looks up by hashes under a seed.
    pub(crate) fn of(
        alloc: Global,
        seed: HashSeed,
        items: &[Item],
        author: u32,
    ) -> Result<Course, NoMemory>
        ensures { IfOk result (λ course. StandsFor course (after_items author items.now at_start)) }
    {
        let mut course = Course {
            replica: Replica::with_seed(alloc, seed)?,
            taken: EditList::new(alloc),
            last: None,
        };
        for item in items {
            course.run_item(alloc, item, author)?;
        }
        Ok(course)
    }

    fn run_item(&mut self, alloc: Global, item: &Item, author: u32) -> Result<(), NoMemory>
        ensures { (before : CourseOf) → StandsFor self.old before → OnOk result (StandsFor self.new (after_item author item.now before)) }
    {
        match item {
            Item::Load { edit, .. } => self.load(alloc, edit),
            Item::Block(block) => {
                self.replica.begin_block(alloc)?;
                self.run_lines(alloc, block.lines.as_slice(), author)
            }
            Item::Show => Ok(()),
        }
    }

    fn load(&mut self, alloc: Global, edit: &Edit) -> Result<(), NoMemory>
        ensures { (before : CourseOf) → StandsFor self.old before → OnOk result (StandsFor self.new (loaded edit.now before)) }
    {
        let mut edits = EditList::new(alloc);
        edits.push(*edit)?;
        take(&mut self.replica, &edits)?;
        self.taken.push(*edit)?;
        Ok(())
    }

    fn run_lines(&mut self, alloc: Global, lines: &[Line], author: u32) -> Result<(), NoMemory>
        ensures { (before : CourseOf) → StandsFor self.old before → OnOk result (StandsFor self.new (after_lines author lines.now before)) }
    {
        for line in lines {
            self.run_line(alloc, line, author)?;
        }
        Ok(())
    }

    fn run_line(&mut self, alloc: Global, line: &Line, author: u32) -> Result<(), NoMemory>
        ensures { (before : CourseOf) → StandsFor self.old before → OnOk result (StandsFor self.new (after_line author line.now before)) }
    {
        match *line {
            Line::Author { author: by, action } => self.act(alloc, by, action, author),
            Line::Send(_) => Ok(()),
        }
    }

    fn act(&mut self, alloc: Global, by: u32, action: Action, author: u32) -> Result<(), NoMemory>
        ensures { (before : CourseOf) → StandsFor self.old before → OnOk result (StandsFor self.new (after_action author by action before)) }
    {
        let (edits, answer) = act(alloc, &mut self.replica, by, action)?;
        let before = self.taken.len();
        self.taken.extend_from_slice(edits.as_slice())?;
        if !is_last(by, author, answer) {
            return Ok(());
        }
        self.last = Some(Acted { before, edits });
        Ok(())
    }
}

// Whether the action of an author with this answer is the last so far of the author that was not refused.
fn is_last(by: u32, author: u32, answer: Answer) -> bool
    ensures { result ≡ ((by == author) && not (is_refused answer)) }
{
    by == author && !is_refused(answer)
}

fn is_refused(answer: Answer) -> bool
    ensures { result ≡ is_refused answer }
{
    match answer {
        Answer::Refused(_) => true,
        Answer::Made { .. } | Answer::Moved { .. } | Answer::Done | Answer::Taken { .. } => false,
    }
}
