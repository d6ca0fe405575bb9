ghost use Rattle.std.specs.Prelude.{◌≡◌, ◌↔◌, ◌∷◌, [], ◌++◌, length, OnOk, IfOk, IfSome, IsTrue};
ghost use Rattle.std.specs.List.Sorted.{IsSorted};
ghost use Rattle.grove_sorts.specs.declared.version.Version.{Version};
ghost use Rattle.grove_edits.specs.declared.edit.Edit.{Edit};
ghost use Rattle.grove_edits.specs.Edit.{edit_edge, edit_kind};
ghost use Rattle.grove_edits.specs.Graph.{begins_with};
ghost use Rattle.grove_edits.specs.declared.edit.EditKind.TheVariants.{Delete};
ghost use Rattle.edit_text.specs.Line.{form, spaced, edge_parts};
ghost use Rattle.edit_text.specs.Text.{line_of};
ghost use Rattle.edit_merge.specs.EditLine.{AreCopied, AreRead, AreSpelled, edits_of};
ghost use Rattle.edit_merge.specs.Named.{Stands, DoesStand, DoStand, StandsForAll, IsWritten, group_length};

use crate::edit_line::EditLine;
use crate::named_line::NamedLine;
use edit_text::read_line;
use grove_edits::Edit;
use grove_names::Name;
use grove_sorts::Version;
use std::alloc::Global;
use text_parts::NoMemory;

/// The canonical text of the edits that sorted lines stand for.
pub(crate) fn write_lines(
    alloc: Global,
    version: Version,
    text: &[u8],
    lines: &[NamedLine],
) -> Result<Vec<u8>, NoMemory>
    requires sorted { IsSorted ⟦<NamedLine as Ord>⟧.cmp lines.now }
    requires stand { DoStand version text.now lines.now }
    ensures { IfOk result (λ out. IsWritten version text.now lines.now [] out.items) }
{
    let mut out = Vec::with_capacity(alloc, text.len())?;
    let mut rest = lines;
    while let [first, ..] = rest {
        let (group, later) = rest.split_at(group_length(first.name, rest));
        write_group(alloc, version, text, group, &mut out)?;
        rest = later;
    }
    Ok(out)
}

// How many lines at the front have the name.
fn group_length(name: Name, lines: &[NamedLine]) -> usize
    ensures { result ≡ group_length name lines.now }
{
    for i in 0..lines.len() {
        if lines[i].name != name {
            return i;
        }
    }
    lines.len()
}

// Appends the canonical text of the edits of one group of lines.
fn write_group(
    alloc: Global,
    version: Version,
    text: &[u8],
    group: &[NamedLine],
    out: &mut Vec<u8>,
) -> Result<(), NoMemory>
    requires { DoStand version text.now group.now }
    ensures { OnOk result (IsWritten version text.now group.now out.old.items out.new.items) }
{
    match line_to_copy(text, group) {
        Some(line) => copy_line(text, line, out),
        None => {
            let mut lines = read_group(alloc, version, text, group)?;
            lines.sort_unstable();
            copy_last_of_each_edge(text, &lines, out)
        }
    }
}

// The line of the edit that is left of a group whose lines are all of one edge: a deletion's if there is one. No edit is read.
fn line_to_copy(text: &[u8], group: &[NamedLine]) -> Option<NamedLine>
    requires { (version : Version) × DoStand version text.now group.now }
    ensures { IfSome result (λ line. (version : Version) → DoStand version text.now group.now → StandsForAll version text.now group.now line) }
{
    let [first, others @ ..] = group else {
        return None;
    };
    let mut chosen = *first;
    for line in others {
        if !are_of_one_edge(text, *first, *line) {
            return None;
        }
        if deletes(text, *line) {
            chosen = *line;
        }
    }
    Some(chosen)
}

// An edge has one spelling, so the bytes tell.
fn are_of_one_edge(text: &[u8], line: NamedLine, other: NamedLine) -> bool
    requires line { (version : Version) × DoesStand version text.now line }
    requires other { (version : Version) × DoesStand version text.now other }
    ensures { (version : Version) (a b : Edit) → Stands version text.now line a → Stands version text.now other b → IsTrue result ↔ (edit_edge a ≡ edit_edge b) }
{
    edge_at(text, line) == edge_at(text, other)
}

// The bytes of a line's edge, which stand behind its sign.
fn edge_at(text: &[u8], line: NamedLine) -> &[u8]
    requires { (version : Version) × DoesStand version text.now line }
    ensures { (version : Version) (edit : Edit) → Stands version text.now line edit → result.now ≡ spaced (edge_parts (edit_edge edit)) }
{
    &line_at(text, line)[1..]
}

fn deletes(text: &[u8], line: NamedLine) -> bool
    requires { (version : Version) × DoesStand version text.now line }
    ensures { (version : Version) (edit : Edit) → Stands version text.now line edit → IsTrue result ↔ (edit_kind edit ≡ Delete) }
{
    line_at(text, line)[0] == b'-'
}

// Appends a line with its LF.
fn copy_line(text: &[u8], line: NamedLine, out: &mut Vec<u8>) -> Result<(), NoMemory>
    requires { (version : Version) × DoesStand version text.now line }
    ensures { OnOk result ((version : Version) (edit : Edit) → Stands version text.now line edit → out.new.items ≡ out.old.items ++ line_of edit) }
{
    out.extend_from_slice(&text[line.start as usize..line.end as usize + 1])?;
    Ok(())
}

fn read_group(
    alloc: Global,
    version: Version,
    text: &[u8],
    group: &[NamedLine],
) -> Result<Vec<EditLine>, NoMemory>
    requires { DoStand version text.now group.now }
    ensures { IfOk result (λ lines. AreRead version text.now group.now lines.items) }
{
    let mut lines = Vec::with_capacity(alloc, group.len())?;
    for line in group {
        let edit = read_again(version, text, *line);
        lines.push_reserved(EditLine { edit, line: *line });
    }
    Ok(lines)
}

fn read_again(version: Version, text: &[u8], line: NamedLine) -> Edit
    requires { DoesStand version text.now line }
    ensures { Stands version text.now line result }
{
    match read_line(version, line_at(text, line)) {
        Ok(edit) => edit,
        Err(_) => unreachable!(),
    }
}

// Copies the last line of each edge. In sorted lines that is the line of a deletion, if there is one.
fn copy_last_of_each_edge(
    text: &[u8],
    lines: &[EditLine],
    out: &mut Vec<u8>,
) -> Result<(), NoMemory>
    requires sorted { IsSorted ⟦<EditLine as Ord>⟧.cmp lines.now }
    requires spelled { (version : Version) × AreSpelled version text.now lines.now }
    ensures { OnOk result (AreCopied lines.now out.old.items out.new.items) }
{
    for i in 0..lines.len() {
        let line = lines[i].line;
        if !begins_with_edge(text, &lines[i + 1..], line) {
            copy_line(text, line, out)?;
        }
    }
    Ok(())
}

// Whether the first of the lines is of the same edge as this one.
fn begins_with_edge(text: &[u8], lines: &[EditLine], line: NamedLine) -> bool
    requires { (version : Version) × DoesStand version text.now line × AreSpelled version text.now lines.now }
    ensures { (version : Version) (edit : Edit) → Stands version text.now line edit → AreSpelled version text.now lines.now → result ≡ begins_with (edit_edge edit) (edits_of lines.now) }
{
    match lines {
        [] => false,
        [first, ..] => are_of_one_edge(text, line, first.line),
    }
}

// The bytes of a line, without its LF.
fn line_at(text: &[u8], line: NamedLine) -> &[u8]
    requires { (version : Version) × DoesStand version text.now line }
    ensures { (version : Version) (edit : Edit) → Stands version text.now line edit → result.now ≡ form (edit_kind edit) (edit_edge edit) }
{
    &text[line.start as usize..line.end as usize]
}
