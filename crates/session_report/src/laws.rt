ghost use Rattle.std.specs.Prelude.{◌≡◌, ℕ, List, ◌++◌, map, slice_get, Some};
ghost use Rattle.grove_sorts.specs.declared.ident.Ident.{Ident};
ghost use Rattle.grove_edits.specs.declared.edit.Edit.{Edit};
ghost use Rattle.grove_edits.specs.Graph.{HasSameEdits};
ghost use Rattle.grove_edits.specs.declared.actor.Actor.TheVariants.{Send};
ghost use Rattle.session_script.specs.declared.item.Item.{Item};
ghost use Rattle.session_script.specs.declared.line.SendLine.{SendLine};
ghost use Rattle.session_script.specs.declared.session.Session.{Session};
ghost use Rattle.replica_exchange.specs.Send.{sent_edits};
ghost use Rattle.session_run.specs.Calls.{Stage, SendsHere};
ghost use Rattle.session_report.specs.Journal.{Entries, IsLegal, asked, edits_of, entries_by};
ghost use Rattle.session_report.specs.Taken.{Journals, taken};
ghost use Rattle.session_report.specs.Report.{IsReport, IsSection, replica_heading};
ghost use Rattle.session_report.specs.Summary.{IsSummary};

use grove_edits::{Answer, Command};
use shared_edits::SharedEdits;
use shared_replica::Machine;

/// Law: a session and its journals have one report.
pub fn one_report<M: Machine<Command = Command, Effect = SharedEdits, Reply = Answer>>()
    ensures { (session : Session) (journals : Journals M) (x y : List ℕ) → IsReport session journals x → IsReport session journals y → x ≡ y }
{}

/// Law: a session and its journals have one summary.
pub fn one_summary<M: Machine<Command = Command, Effect = SharedEdits, Reply = Answer>>()
    ensures { (session : Session) (journals : Journals M) (x y : List ℕ) → IsSummary session journals x → IsSummary session journals y → x ≡ y }
{}

/// Law: replicas that took the same edits, by loads, by actions and by what was sent to them, in any order and with any repeats,
/// have the same section below the line with their names, in one report or in two.
pub fn same_edits_same_section<
    M: Machine<Command = Command, Effect = SharedEdits, Reply = Answer>,
>()
    ensures { (journals others : Journals M) (a b : ℕ) (before earlier : List Item) (name other : Ident) (x y : List ℕ)
        → HasSameEdits (taken journals a before) (taken others b earlier) → IsSection name (taken journals a before) x → IsSection other (taken others b earlier) y
        → (shown : List ℕ) × (x ≡ replica_heading name ++ shown) × (y ≡ replica_heading other ++ shown) }
{}

/// Law: the journal of a block at a replica follows from who asks what in it, and in which order.
pub fn a_journal_follows_from_its_calls<
    M: Machine<Command = Command, Effect = SharedEdits, Reply = Answer>,
>()
    ensures { (stage : Stage) (opening : List Edit) (journal other : Entries M)
        → IsLegal stage opening journal → IsLegal stage opening other → map asked journal ≡ map asked other → journal ≡ other }
{}

/// Law: in whatever pieces the lines of a `send` line go, its entries bring the edits that are sent, in order.
pub fn cuts_do_not_matter<M: Machine<Command = Command, Effect = SharedEdits, Reply = Answer>>()
    ensures { (stage : Stage) (opening : List Edit) (journal : Entries M) (number : ℕ) (send : SendLine) (list : List Edit)
        → IsLegal stage opening journal → SendsHere stage number send → slice_get stage.sources send.from ≡ Some list
        → edits_of (entries_by (Send number) journal) ≡ sent_edits send list }
{}
