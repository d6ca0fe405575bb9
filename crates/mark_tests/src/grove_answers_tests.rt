ghost use Rattle.grove_terms.specs.Sorted.{IsSortedGrove};

use ctx_table::CtxTable;
use grove_terms::{Grove, TreeList};
use std::alloc::Global;
use std::test::Fail;
use type_core::TypeTable;
use whole_groves::{mark_grove, print_grove};

fn print_marked(
    alloc: Global,
    grove: &Grove,
    types: &mut TypeTable,
    text: &mut Vec<u8>,
) -> Result<(), Fail>
    requires { IsSortedGrove grove.now }
{
    let mut contexts = CtxTable::new(alloc)?;
    let marked = mark_grove(alloc, grove, types, &mut contexts)?;
    print_grove(&marked, types, text)?;
    Ok(())
}

fn print_nothing(alloc: Global, text: &mut Vec<u8>) -> Result<(), Fail> {
    let mut types = TypeTable::new(alloc)?;
    let grove = Grove {
        none: TreeList::new(alloc),
        multi: TreeList::new(alloc),
        cycle: TreeList::new(alloc),
    };
    print_marked(alloc, &grove, &mut types, text)
}

#[test]
fn a_grove_without_trees_is_marked_and_printed(rt: HostRuntime) -> Result<(), Fail> {
    let mut text = Vec::new(rt.alloc());
    print_nothing(rt.alloc(), &mut text)?;
    assert!(rt; text.as_slice() == b"none 0\nmulti 0\ncycle 0\n".as_slice());
    Ok(())
}
