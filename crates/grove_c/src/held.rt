// A boxed instance as its address, in a type that does not name what lies there.
ghost use Rattle.std.specs.Prelude.{◌≡◌};
ghost use Rattle.grove_c.specs.Held.{editor_coded, held_owns};
ghost use Rattle.grove_c.specs.contracts.instance.Instance.{the_row};

mod parts;

use crate::instance::Instance;
use parts::Parts;
use std::alloc::Global;
use std::marker::Model;

/// An editor that C holds, with its texts. C passes it back, and reads nothing of it.
#[repr(C)]
pub struct Held {
    at: *mut u8,
    alloc: Global,
    pub ghost editor: { the_row.Denot } by { editor_coded },
}

impl Model for Held {
    ghost also_owns = { λ h. held_owns h.alloc h.at h.editor };
}

impl Held {
    pub fn of(instance: Box<Instance>) -> Held
        ensures { result.editor ≡ instance.value }
    {
        Held::of_parts(Parts::of(instance))
    }

    pub fn into_instance(self) -> Box<Instance>
        ensures { result.value ≡ self.editor }
    {
        self.into_parts().into_box()
    }

    /// The address of the instance, for C to keep. Whoever has it has the instance: it is freed only by way of a `Held` made of it.
    pub fn into_address(self) -> *mut u8
        ensures { result ≡ self.at }
    {
        let Held { at, alloc: _ } = self;
        at
    }

    fn of_parts(parts: Parts<Instance, Global>) -> Held
        ensures { result.editor ≡ parts.value }
    {
        let Parts { ptr, alloc } = parts;
        Held {
            at: ptr as *mut u8,
            alloc,
        }
    }

    fn into_parts(self) -> Parts<Instance, Global>
        ensures { result.value ≡ self.editor }
    {
        let Held { at, alloc } = self;
        Parts {
            ptr: at as *mut Instance,
            alloc,
        }
    }
}
