ghost use Rattle.std.specs.Prelude.{◌≡◌, ◌≢◌, ◌<◌, ◌^◌, ◌∷◌, ◌++◌, ℕ, Bool, List, IfSome, IfNone, IfOk, IfErr, IsSomeAnd};
ghost use Rattle.grove_sorts.specs.Ident.{ident_bytes};
ghost use Rattle.edit_text.specs.Line.{form};
ghost use Rattle.grove_sorts.specs.declared.version.Version.{Version};
ghost use Rattle.grove_edits.specs.Edge.{IsEdgeOf};
ghost use Rattle.grove_edits.specs.Edit.{edit_edge, edit_kind};
ghost use Rattle.session_script.specs.declared.statement.SendText.{SendText};
ghost use Rattle.session_script.specs.declared.statement.Statement.{Statement};
ghost use Rattle.session_script.specs.Statement.{direction, repetition, statement_text, HasFormFault, InRange, IsReplicaOf, IsStatementOf, Says};
ghost use Rattle.session_script.specs.Form.{IsOneWord, IsOther, HasLoadFault, send_rest, terms_rest};

use crate::action_text::read_action;
use crate::parts::{after_word, take_author, take_ident, take_number, whole_ident};
use crate::statement::{SendText, Statement};
use edit_text::{LineFault, read_line};
use grove_edits::Edit;
use grove_sorts::{Ident, Version};
use text_parts::read_number;

/// What a line of a session says by itself in the version, or the first fault of its form. It takes no memory.
pub(crate) fn read_statement(version: Version, line: &[u8]) -> Result<Statement, LineFault>
    ensures says { IfOk result (Says version line.now) }
    ensures form_fault { IfErr result (HasFormFault version line.now) }
{
    if let Some(statement) = read_word(line) {
        return Ok(statement);
    }
    if let Some(rest) = after_word(line, b"load ") {
        return match read_load(version, rest) {
            Ok((replica, edit)) => Ok(Statement::Load { replica, edit }),
            Err(fault) => Err(fault),
        };
    }
    read_other(version, line).ok_or(LineFault::Syntax)
}

// A statement of one word.
fn read_word(line: &[u8]) -> Option<Statement>
    ensures found { IfSome result (λ s. line.now ≡ statement_text s) }
    ensures in_range { IfSome result InRange }
    ensures of_versions { IfSome result (λ s. (version : Version) → IsStatementOf version s) }
    ensures none { IfNone result ((s : Statement) → IsOneWord s → line.now ≢ statement_text s) }
{
    if line == b"session".as_slice() {
        return Some(Statement::Session(Version::One));
    }
    if line == b"session 2".as_slice() {
        return Some(Statement::Session(Version::Two));
    }
    if line == b"block".as_slice() {
        return Some(Statement::Block);
    }
    if line == b"end".as_slice() {
        return Some(Statement::End);
    }
    if line == b"show".as_slice() {
        return Some(Statement::Show);
    }
    None
}

// The replica and the edit of a line that loads one.
fn read_load(version: Version, text: &[u8]) -> Result<(Ident, Edit), LineFault>
    ensures found { IfOk result (λ read. text.now ≡ ident_bytes read.0 ++ 32 ∷ form (edit_kind read.1) (edit_edge read.1)) }
    ensures of_version { IfOk result (λ read. IsReplicaOf version read.0 × IsEdgeOf version (edit_edge read.1)) }
    ensures fault { IfErr result (HasLoadFault version text.now) }
{
    let Some((replica, rest)) = take_ident(version, text) else {
        return Err(LineFault::Syntax);
    };
    match read_line(version, rest) {
        Ok(edit) => Ok((replica, edit)),
        Err(fault) => Err(fault),
    }
}

// A statement of several words that loads no edit.
fn read_other(version: Version, line: &[u8]) -> Option<Statement>
    ensures found { IfSome result (λ s. line.now ≡ statement_text s) }
    ensures in_range { IfSome result InRange }
    ensures of_version { IfSome result (IsStatementOf version) }
    ensures none { IfNone result ((s : Statement) → IsOther s → InRange s → IsStatementOf version s → line.now ≢ statement_text s) }
{
    if let Some(rest) = after_word(line, b"replica ") {
        let replica = whole_ident(version, rest)?;
        return Some(Statement::Replica(replica));
    }
    if let Some(rest) = after_word(line, b"author ") {
        let (author, rest) = take_author(rest)?;
        let replica = whole_ident(version, rest)?;
        return Some(Statement::Author { author, replica });
    }
    if let Some(rest) = after_word(line, b"send ") {
        let send = read_send(version, rest)?;
        return Some(Statement::Send(send));
    }
    let (author, rest) = take_author(line)?;
    let action = read_action(version, rest)?;
    Some(Statement::Act { author, action })
}

// A `send` line behind its first word.
fn read_send(version: Version, text: &[u8]) -> Option<SendText>
    ensures found { IfSome result (λ send. text.now ≡ send_rest send) }
    ensures in_range { IfSome result (λ send. InRange (Statement.Send send)) }
    ensures of_version { IfSome result (λ send. IsStatementOf version (Statement.Send send)) }
    ensures none { IfNone result ((send : SendText) → InRange (Statement.Send send) → IsStatementOf version (Statement.Send send) → text.now ≢ send_rest send) }
{
    let (from, rest) = take_ident(version, text)?;
    let (to, rest) = take_ident(version, rest)?;
    let terms = read_terms(rest)?;
    Some(SendText {
        from,
        to,
        skip: terms.skip,
        take: terms.take,
        reverse: terms.reverse,
        twice: terms.twice,
        cut: terms.cut,
    })
}

// How many edits are sent, in what order, how often and in which pieces.
#[derive(Clone, Copy)]
struct Terms {
    skip: u64,
    take: u64,
    reverse: bool,
    twice: bool,
    cut: u64,
}

fn read_terms(text: &[u8]) -> Option<Terms>
    ensures found { IfSome result (λ t. text.now ≡ terms_rest t.skip t.take t.reverse t.twice t.cut) }
    ensures in_range { IfSome result (λ t. (t.skip < 2 ^ 64) × (t.take < 2 ^ 64) × (t.cut < 2 ^ 64)) }
    ensures none { IfNone result ((skip take cut : ℕ) (reverse twice : Bool) → skip < 2 ^ 64 → take < 2 ^ 64 → cut < 2 ^ 64
        → text.now ≢ terms_rest skip take reverse twice cut) }
{
    let rest = after_word(text, b"skip ")?;
    let (skip, rest) = take_number(rest)?;
    let rest = after_word(rest, b"take ")?;
    let (take, rest) = take_number(rest)?;
    let (reverse, rest) = take_direction(rest)?;
    let (twice, rest) = take_repetition(rest)?;
    let rest = after_word(rest, b"cut ")?;
    let cut = read_number(rest)?;
    Some(Terms {
        skip,
        take,
        reverse,
        twice,
        cut,
    })
}

fn take_direction(text: &[u8]) -> Option<(bool, &[u8])>
    ensures found { IfSome result (λ read. text.now ≡ direction read.0 ++ 32 ∷ read.1.now) }
    ensures only { (reverse : Bool) (rest : List ℕ) → text.now ≡ direction reverse ++ 32 ∷ rest
        → IsSomeAnd result (λ read. (read.0 ≡ reverse) × (read.1.now ≡ rest)) }
{
    if let Some(rest) = after_word(text, b"forward ") {
        return Some((false, rest));
    }
    let rest = after_word(text, b"reverse ")?;
    Some((true, rest))
}

fn take_repetition(text: &[u8]) -> Option<(bool, &[u8])>
    ensures found { IfSome result (λ read. text.now ≡ repetition read.0 ++ 32 ∷ read.1.now) }
    ensures only { (twice : Bool) (rest : List ℕ) → text.now ≡ repetition twice ++ 32 ∷ rest
        → IsSomeAnd result (λ read. (read.0 ≡ twice) × (read.1.now ≡ rest)) }
{
    if let Some(rest) = after_word(text, b"once ") {
        return Some((false, rest));
    }
    let rest = after_word(text, b"twice ")?;
    Some((true, rest))
}
