ghost use Rattle.std.specs.Prelude.{◌≡◌, ◌+◌, ◌<◌, ◌≤◌, [], ◌∷◌, ◌++◌, length, slice_index, insert, remove, OnOk, OnErr};
ghost use Rattle.edge_lists.specs.Lists.{nothing_listed};

use crate::block::BLOCK;
use crate::blocks::Blocks;
use smallvec::SmallVec;
use std::alloc::Global;
use std::marker::Model;
use text_parts::NoMemory;

/// The numbers of the edges at a vertex, and how many have a place. Most vertices have few, which then need no memory of their own. As many
/// as a block holds stand side by side, and those behind them in blocks.
#[derive(Drop)]
pub(crate) struct Listed {
    first: SmallVec<u32, 2>,
    later: Blocks,
    // There is memory for so many.
    places: u32,
    count: u32,
}

impl Model for Listed {
    ghost use Rattle.std.specs.Prelude.{◌++◌};
    ghost use Rattle.edge_lists.specs.Lists.{Listed};
    ghost use Rattle.edge_lists.specs.Blocks.{AreParts};

    ghost Value = { Listed };

    ghost view = { λ listed. record { numbers = listed.first.items ++ listed.later.numbers; places = listed.places } };

    ghost invariant = { λ listed. AreParts listed.first.items listed.first.capacity listed.later listed.places listed.count };
}

// Puts a number before those from an index on, where there is room.
fn insert_in(numbers: &mut SmallVec<u32, 2>, index: usize, number: u32)
    requires index { index ≤ length numbers.old.items }
    requires room { length numbers.old.items < numbers.old.capacity }
    ensures numbers { numbers.new.items ≡ insert numbers.old.items index number }
    ensures count { length numbers.new.items ≡ length numbers.old.items + 1 }
    ensures room { numbers.new.capacity ≡ numbers.old.capacity }
{
    let _had_room = numbers.insert(index, number);
}

// Puts a number before those from an index on, and takes the last one out.
fn displace(numbers: &mut SmallVec<u32, 2>, index: usize, number: u32) -> u32
    requires index { index < length numbers.old.items }
    requires room { length numbers.old.items ≤ numbers.old.capacity }
    ensures numbers { numbers.new.items ++ result ∷ [] ≡ insert numbers.old.items index number }
    ensures count { length numbers.new.items ≡ length numbers.old.items }
    ensures room { numbers.new.capacity ≡ numbers.old.capacity }
{
    let last = numbers.pop().unwrap();
    insert_in(numbers, index, number);
    last
}

// Takes the number at an index out, and puts one behind the last.
fn replace(numbers: &mut SmallVec<u32, 2>, index: usize, behind: u32)
    requires index { index < length numbers.old.items }
    requires room { length numbers.old.items ≤ numbers.old.capacity }
    ensures numbers { numbers.new.items ≡ remove numbers.old.items index ++ behind ∷ [] }
    ensures count { length numbers.new.items ≡ length numbers.old.items }
    ensures room { numbers.new.capacity ≡ numbers.old.capacity }
{
    numbers.remove(index);
    numbers.push_reserved(behind);
}

impl Listed {
    pub(crate) fn nothing(alloc: Global) -> Listed
        ensures { result ≡ nothing_listed }
    {
        Listed {
            first: SmallVec::new(alloc),
            later: Blocks::new(alloc),
            places: 0,
            count: 0,
        }
    }

    /// How many numbers there are.
    pub(crate) fn len(&self) -> usize
        ensures count { result ≡ length self.now.numbers }
        ensures places { result ≤ self.now.places }
    {
        self.count as usize
    }

    /// The number at an index.
    pub(crate) fn number(&self, index: usize) -> u32
        requires { index < length self.now.numbers }
        ensures { result ≡ slice_index self.now.numbers index }
    {
        let first = self.first.as_slice();
        if index < first.len() {
            first[index]
        } else {
            self.later.number(index - first.len())
        }
    }

    /// Makes one place more.
    pub(crate) fn promise(&mut self, alloc: Global) -> Result<(), NoMemory>
        ensures numbers { self.new.numbers ≡ self.old.numbers }
        ensures places { OnOk result (self.new.places ≡ self.old.places + 1) }
        ensures unchanged { OnErr result (self.new ≡ self.old) }
    {
        // There are no more edges than numbers of 32 bits.
        let places = self.places.checked_add(1).ok_or(NoMemory)?;
        if places as usize <= BLOCK {
            self.first.reserve(places as usize - self.first.len())?;
        } else if !self.later.has_places(places as usize - BLOCK) {
            self.later.add_block(alloc)?;
        }
        self.places = places;
        Ok(())
    }

    /// Puts a number before those from an index on.
    pub(crate) fn insert(&mut self, index: usize, number: u32)
        requires index { index ≤ length self.old.numbers }
        requires place { length self.old.numbers < self.old.places }
        ensures numbers { self.new.numbers ≡ insert self.old.numbers index number }
        ensures places { self.new.places ≡ self.old.places }
    {
        self.count += 1;
        if self.first.len() < BLOCK {
            insert_in(&mut self.first, index, number);
        } else if index < BLOCK {
            let last = displace(&mut self.first, index, number);
            self.later.insert(0, last);
        } else {
            self.later.insert(index - BLOCK, number);
        }
    }

    /// Takes the number at an index out.
    pub(crate) fn remove(&mut self, index: usize)
        requires { index < length self.old.numbers }
        ensures numbers { self.new.numbers ≡ remove self.old.numbers index }
        ensures count { length self.new.numbers + 1 ≡ length self.old.numbers }
        ensures places { self.new.places ≡ self.old.places }
    {
        self.count -= 1;
        if index >= BLOCK {
            self.later.remove(index - BLOCK);
        } else if self.count as usize >= BLOCK {
            let moved = self.later.number(0);
            self.later.remove(0);
            replace(&mut self.first, index, moved);
        } else {
            self.first.remove(index);
        }
    }
}
