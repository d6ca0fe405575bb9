ghost use Rattle.std.specs.Prelude.{◌≡◌, ◌++◌, OnOk};
ghost use Rattle.serde_json.specs.Written.{comma_if, compact_text};
ghost use Rattle.grove_terms.specs.Lent.{node_of, what_of};
ghost use Rattle.marking.specs.Added.{with_added};
ghost use Rattle.marking.specs.Reading.{meant, meant_nodes};
ghost use Rattle.marking.specs.Numbers.{AreMarkedNodesOf, IsMarkedNodeOf};
ghost use Rattle.grove_json.specs.GroveValue.{node_value, tree_value};
ghost use Rattle.grove_json.specs.NodeText.{first_members, last_members};

use crate::members::{
    append_depth, append_edge_member, append_mark_member, append_mode_member,
    append_position_member, append_type_member, append_vertex_member, append_what_member,
};
use grove_printer::sort_of_node;
use grove_terms::{LentNode, LentWhat};
use marking::{Added, MarkedTree};
use text_parts::NoMemory;
use type_core::TypePrinter;

// The members of a node up to its mode, behind the bracket that opens its object.
fn append_first(
    node: &LentNode,
    what: &LentWhat,
    added: &Added,
    types: &mut TypePrinter,
    out: &mut Vec<u8>,
) -> Result<(), NoMemory>
    requires node { IsMarkedNodeOf types.old (with_added node.now added.now) }
    requires what { what_of what.now ≡ (node_of node.now).what }
    ensures appended { OnOk result (out.new.items ≡ out.old.items ++ first_members (meant types.old (with_added node.now added.now))) }
    ensures same_types { types.new ≡ types.old }
{
    append_depth(node.depth(), out)?;
    append_edge_member(node.edge(), out)?;
    append_mark_member(added.mark, out)?;
    append_mode_member(sort_of_node(what), added.mode, types, out)?;
    Ok(())
}

// The other members, and the bracket that closes the object.
fn append_last(
    node: &LentNode,
    what: &LentWhat,
    added: &Added,
    types: &mut TypePrinter,
    out: &mut Vec<u8>,
) -> Result<(), NoMemory>
    requires node { IsMarkedNodeOf types.old (with_added node.now added.now) }
    requires what { what_of what.now ≡ (node_of node.now).what }
    ensures appended { OnOk result (out.new.items ≡ out.old.items ++ last_members (meant types.old (with_added node.now added.now))) }
    ensures same_types { types.new ≡ types.old }
{
    append_position_member(node.position(), out)?;
    append_type_member(added.typ, types, out)?;
    append_vertex_member(what, out)?;
    append_what_member(what, out)?;
    out.push(b'}')?;
    Ok(())
}

// Appends the text of the object of a node.
fn append_node(
    node: &LentNode,
    added: &Added,
    types: &mut TypePrinter,
    out: &mut Vec<u8>,
) -> Result<(), NoMemory>
    requires { IsMarkedNodeOf types.old (with_added node.now added.now) }
    ensures appended { OnOk result (out.new.items ≡ out.old.items ++ compact_text (node_value (meant types.old (with_added node.now added.now)))) }
    ensures same_types { types.new ≡ types.old }
{
    let what = node.what();
    append_first(node, &what, added, types, out)?;
    append_last(node, &what, added, types, out)
}

// Appends a comma where something stands before.
fn append_comma(later: bool, out: &mut Vec<u8>) -> Result<(), NoMemory>
    ensures { OnOk result (out.new.items ≡ out.old.items ++ comma_if later) }
{
    if later {
        out.push(b',')?;
    }
    Ok(())
}

/// Appends the text of the array of the nodes of a tree.
pub(crate) fn append_tree(
    tree: &MarkedTree,
    types: &mut TypePrinter,
    out: &mut Vec<u8>,
) -> Result<(), NoMemory>
    requires { AreMarkedNodesOf types.old tree.now }
    ensures appended { OnOk result (out.new.items ≡ out.old.items ++ compact_text (tree_value (meant_nodes types.old tree.now))) }
{
    out.push(b'[')?;
    let mut later = false;
    for (node, added) in tree.nodes().iter().zip(tree.added()) {
        append_comma(later, out)?;
        append_node(node, added, types, out)?;
        later = true;
    }
    out.push(b']')?;
    Ok(())
}
