ghost use Rattle.edit_table.specs.Ranks.{AreRanks};

use grove_sorts::Ctor;

/// Constructors and their ranks, each by its number.
#[derive(Clone, Copy)]
pub(crate) struct RankedCtors<'t> {
    pub(crate) ctors: &'t [Ctor],
    pub(crate) ranks: &'t [u32],
    ghost are_ranks: { AreRanks ctors.now ranks.now },
}
