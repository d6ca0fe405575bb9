ghost use Rattle.std.specs.Prelude.{IfOk};
ghost use Rattle.grove_edits.specs.Graph.{Ascends};
ghost use Rattle.grove_terms.specs.Sorted.{IsSortedGrove};

use ctx_table::CtxTable;
use edit_table::EditTable;
use grove_edits::EditList;
use grove_json::{json_text, to_value};
use grove_terms::{Grove, TreeList};
use seeded_hash::HashSeed;
use std::alloc::Global;
use std::test::Fail;
use type_core::TypeTable;
use whole_groves::mark_grove;

// What `json` writes of no edits.
const EMPTY: &str =
    "{\"cycle\":[],\"multi\":[],\"none\":[[{\"depth\":0,\"edge\":\"-\",\"mark\":\"-\",\"mode\":\"top\",\"position\":\"-\",\"type\":\"-\",\"vertex\":\"0.0\",\"what\":\"root\"},{\"depth\":1,\"edge\":\"-\",\"mark\":\"-\",\"mode\":\"syn\",\"position\":\"main\",\"type\":\"?\",\"vertex\":\"-\",\"what\":\"hole\"}]]}\n";

fn empty_table(alloc: Global) -> Result<EditTable, Fail>
    ensures { IfOk result (λ table. Ascends table.edits) }
{
    Ok(EditTable::of_list(alloc, &EditList::new(alloc), HashSeed::FIXED)?)
}

fn report_of_nothing(alloc: Global) -> Result<Vec<u8>, Fail> {
    Ok(json_text(alloc, empty_table(alloc)?, HashSeed::FIXED)?)
}

#[test]
fn no_edits_have_a_root_with_a_hole(rt: HostRuntime) -> Result<(), Fail> {
    let text = report_of_nothing(rt.alloc())?;
    assert!(rt; text.as_slice() == EMPTY.as_bytes());
    Ok(())
}

fn value_of(alloc: Global, grove: &Grove, types: &mut TypeTable) -> Result<String, Fail>
    requires { IsSortedGrove grove.now }
{
    let mut contexts = CtxTable::new(alloc)?;
    let marked = mark_grove(alloc, grove, types, &mut contexts)?;
    let value = to_value(alloc, &marked, types)?;
    Ok(value.to_string(alloc)?)
}

fn value_of_nothing(alloc: Global) -> Result<String, Fail> {
    let mut types = TypeTable::new(alloc)?;
    let grove = Grove {
        none: TreeList::new(alloc),
        multi: TreeList::new(alloc),
        cycle: TreeList::new(alloc),
    };
    value_of(alloc, &grove, &mut types)
}

#[test]
fn a_grove_without_trees_has_three_empty_lists(rt: HostRuntime) -> Result<(), Fail> {
    let text = value_of_nothing(rt.alloc())?;
    assert!(rt; text.as_str() == "{\"cycle\":[],\"multi\":[],\"none\":[]}");
    Ok(())
}
