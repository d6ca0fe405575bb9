//! The numbers of authors' lines in a session.
ghost use Rattle.std.specs.Prelude.{◌≡◌, ◌+◌, ◌^◌, ◌<◌, ◌≤◌, [], length, IfOk, IsTrue};
ghost use Rattle.std.specs.List.{AllByRecursion, count_by};
ghost use Rattle.session_run.specs.Boards.{is_line_of as is_line_by};
ghost use Rattle.session_answers.specs.Numbers.{next_numbers, numbers_behind};

use session_script::{AuthorList, Declared, Line};
use std::alloc::Global;
use text_parts::NoMemory;

/// The number of each declared author's first line.
#[tactic(auto, using(crate::proofs::Numbers::first_of_all))]
pub(crate) fn first_numbers(alloc: Global, authors: &AuthorList) -> Result<Vec<u64>, NoMemory>
    ensures { IfOk result (λ calls. calls.items ≡ next_numbers [] authors.now) }
{
    Ok(vec![in alloc; 1u64; authors.len()]?)
}

/// Whether so many lines more can be numbered, whosever they are.
pub(crate) fn can_number(calls: &[u64], lines: usize) -> bool
    ensures { IsTrue result → AllByRecursion (λ first. first + lines < 2 ^ 64) calls.now }
{
    let most = u64::MAX - lines as u64;
    for first in calls {
        if *first > most {
            return false;
        }
    }
    true
}

/// The number of each author's next line behind these lines.
pub(crate) fn count_lines(
    alloc: Global,
    calls: &[u64],
    authors: &[Declared],
    lines: &[Line],
) -> Result<Vec<u64>, NoMemory>
    requires calls { length calls.now ≡ length authors.now }
    requires room { AllByRecursion (λ first. first + length lines.now < 2 ^ 64) calls.now }
    ensures { IfOk result (λ behind. behind.items ≡ numbers_behind lines.now authors.now calls.now) }
{
    let mut behind = Vec::with_capacity(alloc, calls.len())?;
    for (index, call) in calls.iter().enumerate() {
        behind.push(number_behind(call, &authors[index], lines))?;
    }
    Ok(behind)
}

// The number of an author's next line behind these lines, where it had this one before them.
fn number_behind(call: &u64, declared: &Declared, lines: &[Line]) -> u64
    requires { call.now + length lines.now < 2 ^ 64 }
    ensures { result ≡ call.now + count_by (is_line_by declared.now.author) lines.now }
{
    *call + lines_of(declared.author, lines) as u64
}

fn lines_of(author: u32, lines: &[Line]) -> usize
    ensures count { result ≡ count_by (is_line_by author) lines.now }
    ensures within { result ≤ length lines.now }
{
    lines.iter().filter(|line| is_line_of(author, line)).count()
}

fn is_line_of(author: u32, line: &Line) -> bool
    ensures { result ≡ is_line_by author line.now }
{
    match line {
        Line::Author { author: own, .. } => *own == author,
        Line::Send(_) => false,
    }
}
