ghost use Rattle.std.specs.Prelude.{◌≡◌, ℕ, ◌+◌, ◌++◌, [], IfOk, OnOk, refl};
ghost use Rattle.std.proofs.Common.{◌∙◌};
ghost use Rattle.grove_edits.specs.Graph.{graph, Ascends};
ghost use Rattle.plain_typing.specs.Typed.{AreTyped};
ghost use Rattle.grove_printer.specs.Print.{trees_marked_lines};
ghost use Rattle.grove_answers.specs.Texts.{IsCheckText, roots_line};
ghost use Rattle.grove_answers.specs.Laws.{lines_none, lines_more, typed_none, typed_more};

use crate::marks::marks_in;
use crate::parted_report::PartedReport;
use crate::report::Report;
use crate::reporting::{report_graph, report_graph_in_parts};
use edit_table::EditTable;
use grove_printer::{Section, print_marked_lines_of};
use marking::MarkedTree;
use seeded_hash::HashSeed;
use std::alloc::Global;
use std::thread::Threads;
use text_parts::{NoMemory, write_number};
use type_core::TypeTable;

/// The text of `check`, of a table whose edits ascend: the lines of `show` with a mark, and how many trees there are and how many are typed.
/// What it looks up it finds by hashes under a seed.
pub fn check_text(alloc: Global, table: EditTable, seed: HashSeed) -> Result<Vec<u8>, NoMemory>
    requires { Ascends table.edits }
    ensures { IfOk result (λ text. IsCheckText (graph table.edits) text.items) }
{
    let mut checked = Checked {
        text: Vec::new(alloc),
        roots: 0,
        typed: 0,
    };
    report_graph(alloc, table, seed, &mut checked)?;
    with_roots(checked)
}

/// The same text, its trees checked in so many parts side by side.
pub fn check_text_in_parts<T: Threads + Sync>(
    rt: &T,
    alloc: Global,
    table: EditTable,
    seed: HashSeed,
    parts: usize,
) -> Result<Vec<u8>, NoMemory>
    requires { Ascends table.edits }
    ensures { IfOk result (λ text. IsCheckText (graph table.edits) text.items) }
{
    let checked = Checked {
        text: Vec::new(alloc),
        roots: 0,
        typed: 0,
    };
    let checked = report_graph_in_parts(rt, alloc, table, seed, parts, checked)?;
    with_roots(checked)
}

// The marked lines, and behind them how many trees there are and how many are typed.
fn with_roots(checked: Checked) -> Result<Vec<u8>, NoMemory>
    ensures { IfOk result (λ text. text.items ≡ checked.text.items ++ roots_line checked.roots checked.typed) }
{
    let Checked {
        mut text,
        roots,
        typed,
    } = checked;
    append_roots(roots, typed, &mut text)?;
    Ok(text)
}

// The marked lines so far, how many trees there are in the lists so far, and how many were typed.
#[derive(Drop)]
struct Checked {
    text: Vec<u8>,
    roots: u64,
    typed: u64,
}

impl Report for Checked {
    ghost begins = { λ before section trees after.
        (after.text.items ≡ before.text.items) × (after.roots ≡ before.roots + trees) × (after.typed ≡ before.typed) };

    ghost takes = { λ before trees marked after.
        (after.text.items ≡ before.text.items ++ trees_marked_lines marked) × (after.roots ≡ before.roots)
        × ((count : ℕ) × AreTyped trees count × (after.typed ≡ before.typed + count)) };

    ghost takes_none = { λ checked. (lines_none checked.text.items, refl, typed_none checked.typed) };

    ghost takes_more = { λ r s t a b m n first then. (
      lines_more r.text.items s.text.items t.text.items m n first.0 then.0,
      then.1 ∙ first.1,
      typed_more a b r.typed s.typed t.typed first.2 then.2,
    ) };

    // No memory holds so many trees that their number would not fit.
    fn begin(&mut self, _section: Section, trees: usize) -> Result<(), NoMemory> {
        self.roots = self.roots.checked_add(trees as u64).ok_or(NoMemory)?;
        Ok(())
    }

    // By the law of `plain_typing` a tree is typed exactly where its marking has no mark.
    fn take(&mut self, marked: &MarkedTree, types: &TypeTable) -> Result<(), NoMemory> {
        print_marked_lines_of(marked, types, &mut self.text)?;
        if marks_in(marked.added()) == 0 {
            self.typed = self.typed.checked_add(1).ok_or(NoMemory)?;
        }
        Ok(())
    }
}

impl PartedReport for Checked {
    ghost is_blank = { λ checked. (checked.text.items ≡ []) × (checked.roots ≡ 0) × (checked.typed ≡ 0) };

    fn blank(alloc: Global) -> Checked {
        Checked {
            text: Vec::new(alloc),
            roots: 0,
            typed: 0,
        }
    }

    // Lists are begun where their parts are joined, so a part counts no roots.
    fn join(&mut self, part: &Checked) -> Result<(), NoMemory> {
        self.text.extend_from_slice(&part.text)?;
        self.typed = self.typed.checked_add(part.typed).ok_or(NoMemory)?;
        Ok(())
    }
}

fn append_roots(roots: u64, typed: u64, out: &mut Vec<u8>) -> Result<(), NoMemory>
    ensures { OnOk result (out.new.items ≡ out.old.items ++ roots_line roots typed) }
{
    out.extend_from_slice(b"roots ")?;
    write_number(roots, out)?;
    out.extend_from_slice(b" typed ")?;
    write_number(typed, out)?;
    out.push(b'\n')?;
    Ok(())
}
