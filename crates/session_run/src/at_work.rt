//! Who of a replica's authors is at work in a block.
ghost use Rattle.std.specs.Prelude.{◌≡◌};
ghost use Rattle.std.specs.List.{list_any};
ghost use Rattle.session_run.specs.Boards.{is_line_of as is_line_by, is_at_work as works, authors_at_work as count_at_work};

use session_script::{AuthorList, Declared, Line};

/// How many authors of a replica have lines in a block with these lines.
pub fn authors_at_work(authors: &AuthorList, lines: &[Line], replica: u64) -> usize
    ensures { result ≡ count_at_work authors.now lines.now replica }
{
    authors
        .as_slice()
        .iter()
        .filter(|declared| is_at_work(lines, replica, declared))
        .count()
}

fn is_at_work(lines: &[Line], replica: u64, declared: &Declared) -> bool
    ensures { result ≡ works lines.now replica declared.now }
{
    declared.replica == replica && has_line(lines, declared.author)
}

fn has_line(lines: &[Line], author: u32) -> bool
    ensures { result ≡ list_any (is_line_by author) lines.now }
{
    lines.iter().any(|line| is_line_of(author, line))
}

fn is_line_of(author: u32, line: &Line) -> bool
    ensures { result ≡ is_line_by author line.now }
{
    match line {
        Line::Author { author: own, .. } => *own == author,
        Line::Send(_) => false,
    }
}
