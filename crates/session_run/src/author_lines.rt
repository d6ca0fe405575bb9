//! The lines of a block, by who acts.
ghost use Rattle.std.specs.Prelude.{◌≡◌, ◌==◌, [], length, map, IfOk, OnOk};
ghost use Rattle.std.specs.List.{position_from};
ghost use Rattle.session_script.specs.Session.{AllDiffer, author_numbers};
ghost use Rattle.session_run.specs.Calls.{sends_of};
ghost use Rattle.session_run.specs.Workers.{told, with_action, authors_told, first_calls_told, AreLinesOf};

use grove_edits::Action;
use session_script::{AuthorList, Declared, Line, SendLine};
use std::alloc::Global;
use text_parts::NoMemory;

/// What a declared author does in a block, in order.
#[derive(Debug, Drop)]
pub struct AuthorLines {
    pub declared: Declared,
    /// The number of the first action among all lines of the author in the session, counted from 1.
    pub first_call: u64,
    pub actions: Vec<Action>,
}

/// The actions of each declared author, in the order of the declarations.
pub fn lines_by_author(
    alloc: Global,
    authors: &AuthorList,
    first_calls: &[u64],
    lines: &[Line],
) -> Result<Vec<AuthorLines>, NoMemory>
    requires numbers { length first_calls.now ≡ length authors.now }
    requires once { AllDiffer (author_numbers authors.now) }
    ensures lines { IfOk result (λ all. AreLinesOf authors.now lines.now all.items) }
    ensures first_calls { IfOk result (λ all. first_calls_told all.items ≡ first_calls.now) }
{
    let mut all = without_lines(alloc, authors, first_calls)?;
    for line in lines {
        match *line {
            Line::Author { author, action } => append_action(&mut all, author, action)?,
            Line::Send(_) => {}
        }
    }
    Ok(all)
}

// The declared authors, each with no action yet.
fn without_lines(
    alloc: Global,
    authors: &AuthorList,
    first_calls: &[u64],
) -> Result<Vec<AuthorLines>, NoMemory>
    requires { length first_calls.now ≡ length authors.now }
    ensures lines { IfOk result (λ all. map told all.items ≡ map (λ declared. (declared, [])) authors.now) }
    ensures first_calls { IfOk result (λ all. first_calls_told all.items ≡ first_calls.now) }
{
    let mut all = Vec::with_capacity(alloc, authors.len())?;
    for declared in authors.as_slice() {
        all.push(AuthorLines {
            declared: *declared,
            first_call: first_calls[all.len()],
            actions: Vec::new(alloc),
        })?;
    }
    Ok(all)
}

// Appends an action of an author, if it is one of these.
fn append_action(all: &mut Vec<AuthorLines>, author: u32, action: Action) -> Result<(), NoMemory>
    requires { AllDiffer (authors_told all.old.items) }
    ensures added { OnOk result (map told all.new.items ≡ map (with_action author action) (map told all.old.items)) }
    ensures first_calls { OnOk result (first_calls_told all.new.items ≡ first_calls_told all.old.items) }
{
    let Some(index) = index_of(all, author) else {
        return Ok(());
    };
    all[index].actions.push(action)?;
    Ok(())
}

// Where an author stands, if it does.
fn index_of(all: &[AuthorLines], author: u32) -> Option<usize>
    ensures { result ≡ position_from (λ lines. author == lines.declared.author) 0 all.now }
{
    all.iter().position(|lines| author == lines.declared.author)
}

/// The `send` lines, in order.
pub fn sends_in(alloc: Global, lines: &[Line]) -> Result<Vec<SendLine>, NoMemory>
    ensures { IfOk result (λ sends. sends.items ≡ sends_of lines.now) }
{
    let mut sends = Vec::new(alloc);
    for line in lines {
        if let Line::Send(send) = *line {
            sends.push(send)?;
        }
    }
    Ok(sends)
}
