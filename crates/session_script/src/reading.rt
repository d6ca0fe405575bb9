ghost use Rattle.std.specs.Prelude.{◌≡◌, ◌==◌, []};
ghost use Rattle.std.specs.List.{list_any};
ghost use Rattle.session_script.specs.Order.{is_same_ident, is_beyond};
ghost use Rattle.session_script.specs.Session.{author_numbers};

use crate::author::Declared;
use crate::author_list::AuthorList;
use crate::ident_list::IdentList;
use crate::item_list::ItemList;
use crate::line_list::LineList;
use crate::phase::Phase;
use crate::script_kind::ScriptKind;
use crate::statement::{SendText, Statement};
use grove_sorts::{Ident, Version};
use std::alloc::Global;

// What was read of a session.
#[derive(Drop)]
pub(crate) struct Reading {
    // That of the next line.
    pub(crate) version: Version,
    pub(crate) phase: Phase,
    pub(crate) replicas: IdentList,
    pub(crate) authors: AuthorList,
    pub(crate) items: ItemList,
    // The lines of the block that is open, if one is.
    pub(crate) lines: LineList,
    pub(crate) blocks: u64,
    pub(crate) ends: u64,
    pub(crate) sends: u64,
    pub(crate) shows: u64,
}

impl Reading {
    ghost use Rattle.session_script.specs.View.{start, fault_at, place_at, open_at, items_at, declared_at, declared_author_at, repeats_replica_at, unknown_author_at, repeats_author_at, too_many_at};
    ghost use Rattle.session_script.specs.Reading.{view_of, IsOrdered};
    ghost use Rattle.session_script.specs.Order.{named_replicas};
    ghost use Rattle.std.specs.List.{list_all};

    pub(crate) fn new(alloc: Global) -> Reading
        ensures view { view_of result ≡ start }
        ensures ordered { IsOrdered result }
        ensures authors { result.authors ≡ [] }
        ensures items { result.items ≡ [] }
        ensures lines { result.lines ≡ [] }
    {
        Reading {
            version: Version::One,
            phase: Phase::Nothing,
            replicas: IdentList::new(alloc),
            authors: AuthorList::new(alloc),
            items: ItemList::new(alloc),
            lines: LineList::new(alloc),
            blocks: 0,
            ends: 0,
            sends: 0,
            shows: 0,
        }
    }

    fn is_open(&self) -> bool
        ensures { result ≡ open_at (view_of self.now) }
    {
        self.ends < self.blocks
    }

    fn has_some_replica(&self) -> bool
        ensures { result ≡ (view_of self.now).some_replica }
    {
        match self.phase {
            Phase::Nothing => false,
            Phase::Begun => false,
            _ => true,
        }
    }

    // Whether items may stand here, and the session may end.
    pub(crate) fn is_between_items(&self) -> bool
        ensures { result ≡ items_at (view_of self.now) }
    {
        self.has_some_replica() && !self.is_open()
    }

    fn has_replica(&self, replica: &Ident) -> bool
        ensures { result ≡ declared_at (view_of self.now) replica.now }
    {
        has_ident(self.replicas.as_slice(), replica)
    }

    fn has_author(&self, author: u32) -> bool
        ensures { result ≡ declared_author_at (view_of self.now) author }
    {
        has_number(self.authors.as_slice(), author)
    }

    fn has_place(&self, s: &Statement) -> bool
        ensures { result ≡ place_at (view_of self.now) s.now }
    {
        match s {
            Statement::Session(_) => self.phase == Phase::Nothing,
            Statement::Replica(_) => self.phase == Phase::Begun || self.phase == Phase::Replicas,
            Statement::Author { .. } => self.phase == Phase::Replicas
                || self.phase == Phase::Authors,
            Statement::Load { .. } => self.is_between_items(),
            Statement::Show => self.is_between_items(),
            Statement::Block => self.is_between_items(),
            Statement::End => self.is_open(),
            Statement::Act { .. } => self.is_open(),
            Statement::Send(_) => self.is_open(),
        }
    }

    fn knows_replicas(&self, s: &Statement) -> bool
        ensures { result ≡ list_all (declared_at (view_of self.now)) (named_replicas s.now) }
    {
        match s {
            Statement::Author { replica, .. } => self.has_replica(replica),
            Statement::Load { replica, .. } => self.has_replica(replica),
            Statement::Send(send) => self.has_replica(&send.from) && self.has_replica(&send.to),
            _ => true,
        }
    }

    fn repeats_replica(&self, s: &Statement) -> bool
        ensures { result ≡ repeats_replica_at (view_of self.now) s.now }
    {
        match s {
            Statement::Replica(replica) => self.has_replica(replica),
            _ => false,
        }
    }

    fn has_unknown_author(&self, s: &Statement) -> bool
        ensures { result ≡ unknown_author_at (view_of self.now) s.now }
    {
        match s {
            Statement::Act { author, .. } => !self.has_author(*author),
            _ => false,
        }
    }

    fn repeats_author(&self, s: &Statement) -> bool
        ensures { result ≡ repeats_author_at (view_of self.now) s.now }
    {
        match s {
            Statement::Author { author, .. } => self.has_author(*author),
            _ => false,
        }
    }

    fn is_too_many(&self, s: &Statement) -> bool
        ensures { result ≡ too_many_at (view_of self.now) s.now }
    {
        match s {
            Statement::Replica(_) => 8 <= self.replicas.len(),
            Statement::Author { .. } => 64 <= self.authors.len(),
            Statement::Block => 64 <= self.blocks,
            Statement::Send(send) => 32 <= self.sends || is_beyond_limits(send),
            Statement::Show => 8 <= self.shows,
            _ => false,
        }
    }

    // The first fault of the next statement, if it has one.
    pub(crate) fn first_fault(&self, s: &Statement) -> Option<ScriptKind>
        ensures { result ≡ fault_at (view_of self.now) s.now }
    {
        if !self.has_place(s) {
            return Some(ScriptKind::OutOfPlace);
        }
        if !self.knows_replicas(s) {
            return Some(ScriptKind::UnknownReplica);
        }
        if self.repeats_replica(s) {
            return Some(ScriptKind::RepeatedReplica);
        }
        if self.has_unknown_author(s) {
            return Some(ScriptKind::UnknownAuthor);
        }
        if self.repeats_author(s) {
            return Some(ScriptKind::RepeatedAuthor);
        }
        if self.is_too_many(s) {
            return Some(ScriptKind::TooMany);
        }
        None
    }
}

fn has_ident(idents: &[Ident], ident: &Ident) -> bool
    ensures { result ≡ list_any (is_same_ident ident.now) idents.now }
{
    idents.iter().any(|other| ident.cmp(other).is_eq())
}

fn has_number(authors: &[Declared], author: u32) -> bool
    ensures { result ≡ list_any (λ n. n == author) (author_numbers authors.now) }
{
    for declared in authors {
        if declared.author == author {
            return true;
        }
    }
    false
}

fn is_beyond_limits(send: &SendText) -> bool
    ensures { result ≡ is_beyond send.now }
{
    let SendText {
        skip,
        take,
        cut,
        ..
    } = *send;
    if 1_000_000 < skip || 1_000_000 < take || cut == 0 || 65_536 < cut {
        return true;
    }
    4_096 * cut < take
}
