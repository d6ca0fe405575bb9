ghost use Rattle.std.specs.Prelude.{◌≡◌, ◌++◌, List, [], reverse, OnOk, OnErr};
ghost use Rattle.graph_table.specs.Around.{Child, indices_at};
ghost use Rattle.graph_table.specs.Chain.{IsChain, IsChained};

use crate::link::Link;
use grove_sorts::Position;
use text_parts::NoMemory;

/// Appends the indices of those children that have a position, the last child first.
fn push_indices(
    links: &[Link],
    last: u32,
    position: Position,
    out: &mut Vec<usize>,
) -> Result<(), NoMemory>
    requires { IsChained links.now last }
    ensures { OnOk result ((children : List Child) → IsChain links.now last children → out.new.items ≡ out.old.items ++ indices_at position children) }
{
    let mut next = last;
    while next != 0 {
        let index = (next - 1) as usize;
        let link = links[index];
        if link.position == position {
            out.push(index)?;
        }
        next = link.before;
    }
    Ok(())
}

/// Puts the indices of the children that have a position into a list, in place of what it had. Where memory runs out, the list is
/// empty.
pub(crate) fn children_at(
    links: &[Link],
    last: u32,
    position: Position,
    out: &mut Vec<usize>,
) -> Result<(), NoMemory>
    requires { IsChained links.now last }
    ensures indices { OnOk result ((children : List Child) → IsChain links.now last children → out.new.items ≡ reverse (indices_at position children)) }
    ensures nothing { OnErr result (out.new.items ≡ []) }
{
    out.clear();
    let pushed = push_indices(links, last, position, out);
    if pushed.is_err() {
        out.clear();
    }
    out.reverse();
    pushed
}
