//! What a block opens of its replicas: a list of what one opens with only where something is sent from it, or one of its authors cuts.
ghost use Rattle.std.specs.Prelude.{◌≡◌, map, IfOk};
ghost use Rattle.std.specs.List.{AllByRecursion, list_any};
ghost use Rattle.grove_edits.specs.Graph.{Ascends};
ghost use Rattle.replica_core.specs.Content.{with_block};
ghost use Rattle.session_answers.specs.Opened.{is_cut as cuts, acts_at, cuts_by, cuts_at, sends_by, sends_from as is_sent_from, asks_of, listed, all_listed};

use grove_edits::{Action, EditList};
use replica_core::Replica;
use session_script::{AuthorList, Declared, Line};
use std::alloc::Global;
use text_parts::NoMemory;

/// Opens a block with these lines on each replica, and lists what each opens with, where the lines ask for it. Of the others nothing is
/// listed.
pub(crate) fn open_block_on_each(
    alloc: Global,
    replicas: Vec<Replica>,
    authors: &AuthorList,
    lines: &[Line],
) -> Result<(Vec<Replica>, Vec<EditList>), NoMemory>
    ensures opened { IfOk result (λ opened. opened.0.items ≡ map with_block replicas.items) }
    ensures lists { IfOk result (λ opened. opened.1.items ≡ all_listed authors.now lines.now 0 replicas.items) }
    ensures ascend { IfOk result (λ opened. AllByRecursion Ascends opened.1.items) }
{
    let lists = list_each(alloc, &replicas, authors, lines)?;
    let opened = open_each(alloc, replicas)?;
    Ok((opened, lists))
}

// What each replica has, where the lines of a block ask for it.
fn list_each(
    alloc: Global,
    replicas: &[Replica],
    authors: &AuthorList,
    lines: &[Line],
) -> Result<Vec<EditList>, NoMemory>
    ensures lists { IfOk result (λ lists. lists.items ≡ all_listed authors.now lines.now 0 replicas.now) }
    ensures ascend { IfOk result (λ lists. AllByRecursion Ascends lists.items) }
{
    let mut lists = Vec::with_capacity(alloc, replicas.len())?;
    for replica in replicas {
        let asked = is_asked_of(authors, lines, lists.len() as u64);
        lists.push(list_if(alloc, replica, asked)?)?;
    }
    Ok(lists)
}

// Opens a block on each replica.
fn open_each(alloc: Global, replicas: Vec<Replica>) -> Result<Vec<Replica>, NoMemory>
    ensures { IfOk result (λ opened. opened.items ≡ map with_block replicas.items) }
{
    let mut opened = Vec::with_capacity(alloc, replicas.len())?;
    for mut replica in replicas {
        replica.begin_block(alloc)?;
        opened.push(replica)?;
    }
    Ok(opened)
}

// The canonical list of a replica, if it is asked for.
fn list_if(alloc: Global, replica: &Replica, asked: bool) -> Result<EditList, NoMemory>
    ensures list { IfOk result (λ list. list ≡ listed asked replica.now.edits) }
    ensures ascends { IfOk result (λ list. Ascends list) }
{
    if asked {
        replica.in_order(alloc)
    } else {
        Ok(EditList::new(alloc))
    }
}

fn is_asked_of(authors: &AuthorList, lines: &[Line], replica: u64) -> bool
    ensures { result ≡ asks_of authors.now lines.now replica }
{
    sends_from(lines, replica) || has_cut(authors, lines, replica)
}

fn sends_from(lines: &[Line], replica: u64) -> bool
    ensures { result ≡ is_sent_from lines.now replica }
{
    lines.iter().any(|line| is_sent_by(replica, line))
}

fn is_sent_by(replica: u64, line: &Line) -> bool
    ensures { result ≡ sends_by replica line.now }
{
    match line {
        Line::Author { .. } => false,
        Line::Send(send) => send.from == replica,
    }
}

/// Whether an author of the replica cuts in a block with these lines.
pub(crate) fn has_cut(authors: &AuthorList, lines: &[Line], replica: u64) -> bool
    ensures { result ≡ cuts_at authors.now lines.now replica }
{
    lines.iter().any(|line| is_cut_at(authors, replica, line))
}

fn is_cut_at(authors: &AuthorList, replica: u64, line: &Line) -> bool
    ensures { result ≡ cuts_by authors.now replica line.now }
{
    match line {
        Line::Author { author, action } => is_cut(action) && acts_on(authors, *author, replica),
        Line::Send(_) => false,
    }
}

fn is_cut(action: &Action) -> bool
    ensures { result ≡ cuts action.now }
{
    matches!(action, Action::Cut { .. })
}

fn acts_on(authors: &AuthorList, author: u32, replica: u64) -> bool
    ensures { result ≡ list_any (acts_at author replica) authors.now }
{
    authors
        .as_slice()
        .iter()
        .any(|declared| is_author_at(author, replica, declared))
}

fn is_author_at(author: u32, replica: u64, declared: &Declared) -> bool
    ensures { result ≡ acts_at author replica declared.now }
{
    declared.author == author && declared.replica == replica
}
