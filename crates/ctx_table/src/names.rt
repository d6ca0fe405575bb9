ghost use Rattle.std.specs.Prelude.{◌≡◌, Some, IfOk};
ghost use Rattle.ctx_table.specs.Names.{number_in, AreNumbered, KeepsNumbers};

use grove_sorts::Ident;
use std::collections::BTreeMap;
use text_parts::NoMemory;

// The number of a name, which gets the next one where it has none.
pub(crate) fn number_of(names: &mut BTreeMap<Ident, u64>, name: Ident) -> Result<u64, NoMemory>
    requires { AreNumbered names.old.entries }
    ensures numbered { AreNumbered names.new.entries }
    ensures number { IfOk result (λ number. number_in names.new.entries name ≡ Some number) }
    ensures kept { KeepsNumbers names.old.entries names.new.entries }
{
    if let Some(number) = names.get(&name) {
        return Ok(*number);
    }
    let number = names.len() as u64;
    names.insert(name, number)?;
    Ok(number)
}
