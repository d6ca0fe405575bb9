ghost use Rattle.std.specs.Prelude.{◌≡◌, ◌↔◌, Bool, IsTrue};
ghost use Rattle.std.specs.List.{list_any, AllByRecursion};
ghost use Rattle.session_script.specs.Session.{is_send};
ghost use Rattle.undo_answers.specs.Fit.{IsFit, has_send, is_fit};

use session_script::{Item, Line, Session};

/// Whether actions can be undone in a session: it has one replica, and nothing is sent in it.
pub fn is_fit(session: &Session) -> bool
    ensures { result ≡ is_fit session.now }
{
    session.replicas.len() == 1 && !has_send_item(session.items.as_slice())
}

fn has_send_item(items: &[Item]) -> bool
    ensures { result ≡ list_any has_send items.now }
{
    items.iter().any(|item| has_send(item))
}

fn has_send(item: &Item) -> bool
    ensures { result ≡ has_send item.now }
{
    match item {
        Item::Block(block) => has_send_line(block.lines.as_slice()),
        Item::Load { .. } | Item::Show => false,
    }
}

fn has_send_line(lines: &[Line]) -> bool
    ensures { result ≡ list_any is_send lines.now }
{
    lines.iter().any(|line| is_send_line(line))
}

fn is_send_line(line: &Line) -> bool
    ensures { result ≡ is_send line.now }
{
    match line {
        Line::Author { .. } => false,
        Line::Send(_) => true,
    }
}
