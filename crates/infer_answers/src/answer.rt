ghost use Rattle.std.specs.Prelude.{◌≡◌, ◌*◌, ◌^◌, ◌<◌, ◌++◌, length, OnOk};
ghost use Rattle.grove_terms.specs.Lent.{node_of, nodes_of};
ghost use Rattle.infer_answers.specs.Texts.{answer_text, clash_text, hole_line, hole_lines, type_line};
ghost use Rattle.infer_answers.specs.Telling.{IsWide};

use grove_sorts::Sort;
use grove_terms::{LentNode, LentWhat};
use text_parts::{NoMemory, write_number};
use type_infer::{Inference, Solution};

// How deep the types of holes are written.
const LEVELS: u32 = 8;

/// Appends what the answer to a tree's equations says of its nodes.
pub(crate) fn append_answer(
    answer: &Inference,
    nodes: &[LentNode],
    out: &mut Vec<u8>,
) -> Result<(), NoMemory>
    requires { IsWide (length nodes.now) answer.now }
    ensures { OnOk result (out.new.items ≡ out.old.items ++ answer_text answer.now (nodes_of nodes.now)) }
{
    match answer {
        Inference::Solved(solution) => append_holes(solution, nodes, out),
        Inference::Clash { equation } => append_clash(*equation, out),
    }
}

fn append_clash(equation: u64, out: &mut Vec<u8>) -> Result<(), NoMemory>
    ensures { OnOk result (out.new.items ≡ out.old.items ++ clash_text equation) }
{
    out.extend_from_slice(b"clash ")?;
    write_number(equation, out)?;
    out.push(b'\n')?;
    Ok(())
}

// Appends a line for each hole for a type.
fn append_holes(solution: &Solution, nodes: &[LentNode], out: &mut Vec<u8>) -> Result<(), NoMemory>
    requires { length solution.now ≡ 3 * length nodes.now }
    ensures { OnOk result (out.new.items ≡ out.old.items ++ hole_lines solution.now (nodes_of nodes.now) 0) }
{
    for line in 0..nodes.len() {
        append_hole(solution, &nodes[line], line as u64, out)?;
    }
    Ok(())
}

fn append_hole(
    solution: &Solution,
    node: &LentNode,
    line: u64,
    out: &mut Vec<u8>,
) -> Result<(), NoMemory>
    requires within { 3 * line < length solution.now }
    requires small { 3 * line < 2 ^ 64 }
    ensures { OnOk result (out.new.items ≡ out.old.items ++ hole_line solution.now (node_of node.now).what line) }
{
    match node.what() {
        LentWhat::Hole(Sort::Typ) => append_type(solution, line, out),
        _ => Ok(()),
    }
}

fn append_type(solution: &Solution, line: u64, out: &mut Vec<u8>) -> Result<(), NoMemory>
    requires within { 3 * line < length solution.now }
    requires small { 3 * line < 2 ^ 64 }
    ensures { OnOk result (out.new.items ≡ out.old.items ++ type_line solution.now line) }
{
    write_number(line, out)?;
    out.push(b' ')?;
    solution.write(3 * line, LEVELS, out)?;
    out.push(b'\n')?;
    Ok(())
}
