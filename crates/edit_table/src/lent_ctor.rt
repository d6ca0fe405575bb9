ghost use Rattle.std.specs.Prelude.{◌≡◌};
ghost use Rattle.grove_sorts.specs.Ctor.{ctor_cmp, sort_of_ctor};
ghost use Rattle.edit_table.specs.Lent.{lent_ctor};

use grove_sorts::{Ctor, Sort, sort_of};
use std::cmp::Ordering;

/// A constructor as whoever keeps it lends it: where it stands, or a literal, which need not stand whole anywhere.
#[derive(Clone, Copy, Debug)]
pub enum LentCtor<'g> {
    At(&'g Ctor),
    Literal(u64),
}

impl<'g> LentCtor<'g> {
    /// The constructor itself, in its whole width.
    pub fn ctor(&self) -> Ctor
        ensures { result ≡ lent_ctor self.now }
    {
        match self {
            LentCtor::At(ctor) => **ctor,
            LentCtor::Literal(literal) => Ctor::Num(*literal),
        }
    }

    /// The sort of the vertices that have it.
    pub fn sort(&self) -> Sort
        ensures { result ≡ sort_of_ctor (lent_ctor self.now) }
    {
        match self {
            LentCtor::At(ctor) => sort_of(ctor),
            LentCtor::Literal(_literal) => Sort::Exp,
        }
    }
}

/// The order of two lent constructors. Those that stand whole somewhere are compared where they stand.
#[inline(never)]
pub(crate) fn compare_ctors(a: &LentCtor, b: &LentCtor) -> Ordering
    ensures { result ≡ ctor_cmp (lent_ctor a.now) (lent_ctor b.now) }
{
    match (*a, *b) {
        (LentCtor::At(a), LentCtor::At(b)) => a.cmp(b),
        (LentCtor::At(a), LentCtor::Literal(b)) => a.cmp(&Ctor::Num(b)),
        (LentCtor::Literal(a), LentCtor::At(b)) => Ctor::Num(a).cmp(b),
        (LentCtor::Literal(a), LentCtor::Literal(b)) => a.cmp(&b),
    }
}
