ghost use Rattle.std.specs.Prelude.{◌≡◌, ◌++◌, ℕ, List, OnOk};
ghost use Rattle.grove_sorts.specs.Ctor.{sort_of_ctor};
ghost use Rattle.edit_table.specs.Lent.{lent_ctor, lent_vertex};
ghost use Rattle.grove_terms.specs.Forest.{Forest};
ghost use Rattle.grove_terms.specs.Lent.{nodes_of};
ghost use Rattle.grove_terms.specs.Nodes.{tree_nodes};
ghost use Rattle.infer_answers.specs.Texts.{IsInferred, IsTextBySort, head_line};

use crate::answer::append_answer;
use edit_table::LentVertex;
use grove_names::{Name, write_name};
use grove_sorts::Sort;
use grove_terms::LentNode;
use seeded_hash::HashSeed;
use std::alloc::Global;
use text_parts::NoMemory;
use type_infer::{equations, solve};

/// Appends what is said of a tree, from its head and its nodes: nothing of patterns and types.
pub(crate) fn append_tree(
    alloc: Global,
    head: LentVertex,
    nodes: &[LentNode],
    seed: HashSeed,
    out: &mut Vec<u8>,
) -> Result<(), NoMemory>
    ensures { OnOk result ((f : Forest) → nodes_of nodes.now ≡ tree_nodes (lent_vertex head.entry) f
        → (text : List ℕ) × IsTextBySort (sort_of_ctor (lent_ctor head.entry.ctor)) (lent_vertex head.entry) f text × (out.new.items ≡ out.old.items ++ text)) }
{
    match head.ctor.sort() {
        Sort::Pat | Sort::Typ => Ok(()),
        Sort::Top | Sort::Exp => append_inferred(alloc, head, nodes, seed, out),
    }
}

fn append_head(name: Name, out: &mut Vec<u8>) -> Result<(), NoMemory>
    ensures { OnOk result (out.new.items ≡ out.old.items ++ head_line name) }
{
    out.extend_from_slice(b"tree ")?;
    write_name(name, out)?;
    out.push(b'\n')?;
    Ok(())
}

fn append_inferred(
    alloc: Global,
    head: LentVertex,
    nodes: &[LentNode],
    seed: HashSeed,
    out: &mut Vec<u8>,
) -> Result<(), NoMemory>
    ensures { OnOk result ((f : Forest) → nodes_of nodes.now ≡ tree_nodes (lent_vertex head.entry) f
        → (text : List ℕ) × IsInferred (lent_vertex head.entry) f text × (out.new.items ≡ out.old.items ++ text)) }
{
    append_head(head.name, out)?;
    let list = equations(alloc, nodes, seed)?;
    let answer = solve(alloc, &list)?;
    append_answer(&answer, nodes, out)
}
