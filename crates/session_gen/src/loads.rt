ghost use Rattle.std.specs.Prelude.{◌≡◌, ◌<◌, ◌≤◌, ◌^◌, [], ◌∷◌, List, IfOk};
ghost use Rattle.grove_sorts.specs.declared.ident.Ident.{Ident};
ghost use Rattle.session_script.specs.Session.{item_lines};
ghost use Rattle.session_gen.specs.Generated.{spread, load_line};
ghost use Rattle.session_gen.specs.Items.{AreNamed, IsLoad, AreLoads};

use crate::group::group_edit;
use session_script::{Item, ItemList, NoMemory};
use std::alloc::Global;

// So many loads, spread over three replicas by a linear congruential sequence.
pub(crate) fn load_items(alloc: Global, count: u64) -> Result<ItemList, NoMemory>
    requires { count ≤ 200000 }
    ensures { IfOk result (AreLoads count) }
{
    let mut items = ItemList::new(alloc);
    let mut state: u64 = 12_345;
    for number in 0..count {
        items.push(load_item(number, state))?;
        state = (1_103_515_245 * state + 12_345) % 2_147_483_648;
    }
    Ok(items)
}

fn load_item(number: u64, state: u64) -> Item
    requires few { number < 200000 }
    requires state { state ≡ spread number }
    ensures lines { (replicas : List Ident) → AreNamed replicas → item_lines replicas result ≡ load_line number ∷ [] }
    ensures good { IsLoad result }
{
    Item::Load {
        replica: (state / 65_536) % 3,
        edit: group_edit(number / 10, number % 10),
    }
}
