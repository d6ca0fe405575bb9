ghost use Rattle.std.specs.Prelude.{◌≡◌, ◌<◌, ◌^◌, length, IfOk};
ghost use Rattle.std.specs.List.{All};
ghost use Rattle.edit_table.specs.declared.ranking.NumberedCtor.{NumberedCtor};
ghost use Rattle.edit_table.specs.Keys.{StandOnce};
ghost use Rattle.edit_table.specs.Ranks.{numbered_from, AreIndices, AreRanks};

use grove_sorts::Ctor;
use std::alloc::Global;
use text_parts::NoMemory;

// A constructor beside its number. They are sorted whole, so that memory is read in order: what numbers alone point to lies all over it.
#[derive(Clone, Copy)]
struct NumberedCtor {
    ctor: Ctor,
    number: u32,
}

/// The rank of each constructor, by its number. Ranks are ordered as their constructors, and are compared without reading these.
pub(crate) fn rank_ctors(alloc: Global, ctors: &[Ctor]) -> Result<Vec<u32>, NoMemory>
    requires { StandOnce ctors.now }
    ensures each { IfOk result (λ ranks. length ranks.items ≡ length ctors.now) }
    ensures ordered { IfOk result (λ ranks. AreRanks ctors.now ranks.items) }
{
    let mut numbered = number_ctors(alloc, ctors)?;
    numbered.sort_unstable_by(|a, b| a.ctor.cmp(&b.ctor));
    ranks_of(alloc, &numbered)
}

fn number_ctors(alloc: Global, ctors: &[Ctor]) -> Result<Vec<NumberedCtor>, NoMemory>
    ensures numbered { IfOk result (λ numbered. numbered.items ≡ numbered_from 0 ctors.now) }
    ensures few { IfOk result (λ numbered. length numbered.items < 2 ^ 32) }
{
    let Ok(count) = u32::try_from(ctors.len()) else {
        return Err(NoMemory);
    };
    let mut numbered = Vec::with_capacity(alloc, ctors.len())?;
    for number in 0..count {
        let ctor = ctors[number as usize];
        numbered.push(NumberedCtor { ctor, number })?;
    }
    Ok(numbered)
}

// The index at which each number stands.
fn ranks_of(alloc: Global, sorted: &[NumberedCtor]) -> Result<Vec<u32>, NoMemory>
    requires few { length sorted.now < 2 ^ 32 }
    requires within { All (λ (x : NumberedCtor). x.number < length sorted.now) sorted.now }
    ensures { IfOk result (λ ranks. AreIndices sorted.now ranks.items) }
{
    let mut ranks = Vec::new(alloc);
    ranks.resize(sorted.len(), 0)?;
    for rank in 0..sorted.len() {
        ranks[sorted[rank].number as usize] = rank as u32;
    }
    Ok(ranks)
}
