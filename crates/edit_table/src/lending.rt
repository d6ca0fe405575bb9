ghost use Rattle.std.specs.Prelude.{◌≡◌};
ghost use Rattle.edit_table.specs.Lent.{lent_ctor};
ghost use Rattle.edit_table.specs.Keys.{ctor_of, IsMet};

use crate::lent_ctor::LentCtor;
use crate::vertex_key::CtorKey;
use grove_sorts::Ctor;
use indexmap::IndexSet;
use seeded_hash::HashSeed;

/// The constructor that a key stands for, lent.
pub(crate) fn lent_ctor(ctors: &IndexSet<Ctor, HashSeed>, key: CtorKey) -> LentCtor<'_>
    requires { IsMet ctors.now.keys key }
    ensures { lent_ctor result ≡ ctor_of ctors.now.keys key }
{
    match key {
        CtorKey::At(number) => LentCtor::At(&ctors[number as usize]),
        CtorKey::Short(literal) => LentCtor::Literal(u64::from(literal)),
    }
}
