ghost use Rattle.std.specs.Prelude.{◌≡◌, ◌≢◌, ◌⊎◌, IfOk};
ghost use Rattle.grove_editor.specs.State.{at_start};
ghost use Rattle.grove_c.specs.declared.code.TheConstants.{DONE, NO_MEMORY};

use crate::code::{DONE, NO_MEMORY};
use crate::held::Held;
use crate::instance::Instance;
use crate::seed::hash_seed;
use grove_editor::NoMemory;
use std::alloc::Global;

/// The version of the calls. It rises where one is added.
#[unsafe(no_mangle)]
pub extern "C" fn grove_c_version() -> u32
    ensures { result ≡ 2 }
{
    2
}

/// Makes an editor at its start, and writes its address to `at`. Where memory runs out `at` is as it was.
#[unsafe(no_mangle)]
pub extern "C" fn grove_c_new(alloc: Global, seed: u64, at: &mut *mut u8) -> u32
    ensures unchanged { result ≢ DONE → at.new ≡ at.old }
    ensures codes { (result ≡ DONE) ⊎ (result ≡ NO_MEMORY) }
{
    match held_at_start(alloc, seed) {
        Ok(held) => {
            *at = held.into_address();
            DONE
        }
        Err(_) => NO_MEMORY,
    }
}

fn held_at_start(alloc: Global, seed: u64) -> Result<Held, NoMemory>
    ensures { IfOk result (λ held. held.editor ≡ at_start) }
{
    let instance = Instance::new(alloc, hash_seed(seed))?;
    match Box::new(alloc, instance) {
        Ok(instance) => Ok(Held::of(instance)),
        Err(_) => Err(NoMemory),
    }
}

/// Frees an editor.
#[unsafe(no_mangle)]
pub extern "C" fn grove_c_free(held: Held) {
    drop(held.into_instance());
}
