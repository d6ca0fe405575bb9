ghost use Rattle.std.specs.Prelude.{◌≡◌, ◌++◌, ◌∷◌, [], OnOk, OnErr};
ghost use Rattle.numbers_by_name.specs.Pages.{at_name, items_of, IsPut};

use grove_names::Name;
use smallvec::SmallVec;
use std::alloc::Global;
use std::collections::BTreeMap;
use text_parts::NoMemory;

/// The numbers of the names that have several.
pub(crate) type Lists = BTreeMap<Name, SmallVec<u32, 4>>;

/// Puts two numbers under a name.
pub(crate) fn put_two(
    lists: &mut Lists,
    alloc: Global,
    name: Name,
    first: u32,
    second: u32,
) -> Result<(), NoMemory>
    ensures put { OnOk result (IsPut name (first ∷ second ∷ []) lists.old.entries lists.new.entries) }
    ensures unchanged { OnErr result (lists.new.entries ≡ lists.old.entries) }
{
    let mut list = SmallVec::new(alloc);
    list.push_reserved(first);
    list.push(second)?;
    lists.insert(name, list)?;
    Ok(())
}

/// Adds a number behind those that stand under a name.
pub(crate) fn add_to_list(
    lists: &mut Lists,
    alloc: Global,
    name: Name,
    number: u32,
) -> Result<(), NoMemory>
    ensures put { OnOk result (IsPut name (items_of (at_name name lists.old.entries) ++ number ∷ []) lists.old.entries lists.new.entries) }
    ensures unchanged { OnErr result (lists.new.entries ≡ lists.old.entries) }
{
    match lists.get_mut(&name) {
        Some(list) => {
            list.push(number)?;
            Ok(())
        }
        None => {
            let mut list = SmallVec::new(alloc);
            list.push_reserved(number);
            lists.insert(name, list)?;
            Ok(())
        }
    }
}
