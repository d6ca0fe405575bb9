ghost use Rattle.std.specs.Prelude.{◌≡◌, ◌+◌, ◌*◌, ◌<◌, ◌≤◌, length, slice_index, insert, remove, IsTrue, OnOk, OnErr};
ghost use Rattle.std.specs.List.{concat};
ghost use Rattle.edge_lists.specs.Lists.{nothing_listed};
ghost use Rattle.edge_lists.specs.Blocks.{block_len, IsPacked};

use crate::block::{BLOCK, Block};
use std::alloc::Global;
use std::marker::Model;
use text_parts::NoMemory;

/// Numbers in blocks, of which all but the last that has any are full. So the place of a number is found by its index, and where one is
/// put or taken out each later block gives one number to the next or takes one from it.
#[derive(Drop)]
pub(crate) struct Blocks {
    blocks: Vec<Block>,
}

impl Model for Blocks {
    ghost use Rattle.std.specs.Prelude.{◌*◌, length};
    ghost use Rattle.std.specs.List.{concat};
    ghost use Rattle.edge_lists.specs.Lists.{Listed};
    ghost use Rattle.edge_lists.specs.Blocks.{block_len, IsPacked};

    ghost Value = { Listed };

    ghost view = { λ blocks. record { numbers = concat blocks.blocks.items; places = block_len * length blocks.blocks.items } };

    ghost invariant = { λ blocks. IsPacked block_len blocks.blocks.items };
}

// Puts a number in a block before those from an index on. A full block gives its last number to the next one.
fn insert_along(blocks: &mut [Block], first: usize, index: usize, number: u32)
    requires packed { IsPacked block_len blocks.old }
    requires index { index < block_len }
    requires within { first * block_len + index ≤ length (concat blocks.old) }
    requires place { length (concat blocks.old) < block_len * length blocks.old }
    ensures numbers { concat blocks.new ≡ insert (concat blocks.old) (first * block_len + index) number }
    ensures packed { IsPacked block_len blocks.new }
    ensures count { length blocks.new ≡ length blocks.old }
{
    let mut at = first;
    let mut place = index;
    let mut given = number;
    while blocks[at].is_full() {
        given = blocks[at].displace(place, given);
        place = 0;
        at += 1;
    }
    blocks[at].insert(place, given);
}

// Takes the number at an index of a block out. Each later block gives its first number to the one before.
fn remove_along(blocks: &mut [Block], first: usize, index: usize)
    requires packed { IsPacked block_len blocks.old }
    requires index { index < block_len }
    requires within { first * block_len + index < length (concat blocks.old) }
    ensures numbers { concat blocks.new ≡ remove (concat blocks.old) (first * block_len + index) }
    ensures packed { IsPacked block_len blocks.new }
    ensures count { length blocks.new ≡ length blocks.old }
{
    let mut at = first;
    blocks[at].remove(index);
    while at + 1 < blocks.len() && !blocks[at + 1].is_empty() {
        let moved = blocks[at + 1].take_first();
        blocks[at].push(moved);
        at += 1;
    }
}

// The number at an index of all.
fn number_in(blocks: &[Block], index: usize) -> u32
    requires packed { IsPacked block_len blocks.now }
    requires within { index < length (concat blocks.now) }
    ensures { result ≡ slice_index (concat blocks.now) index }
{
    blocks[index / BLOCK].number(index % BLOCK)
}

impl Blocks {
    pub(crate) fn new(alloc: Global) -> Blocks
        ensures { result ≡ nothing_listed }
    {
        Blocks {
            blocks: Vec::new(alloc),
        }
    }

    /// Makes places for the numbers of one block more.
    pub(crate) fn add_block(&mut self, alloc: Global) -> Result<(), NoMemory>
        ensures numbers { self.new.numbers ≡ self.old.numbers }
        ensures places { OnOk result (self.new.places ≡ self.old.places + block_len) }
        ensures unchanged { OnErr result (self.new ≡ self.old) }
    {
        let block = Block::new(alloc)?;
        self.blocks.push(block)?;
        Ok(())
    }

    /// Whether so many numbers have places, told by whole blocks.
    pub(crate) fn has_places(&self, places: usize) -> bool
        ensures { IsTrue result → places ≤ self.now.places }
    {
        places.div_ceil(BLOCK) <= self.blocks.len()
    }

    pub(crate) fn number(&self, index: usize) -> u32
        requires { index < length self.now.numbers }
        ensures { result ≡ slice_index self.now.numbers index }
    {
        number_in(&self.blocks, index)
    }

    /// Puts a number before those from an index on.
    pub(crate) fn insert(&mut self, index: usize, number: u32)
        requires index { index ≤ length self.old.numbers }
        requires place { length self.old.numbers < self.old.places }
        ensures numbers { self.new.numbers ≡ insert self.old.numbers index number }
        ensures places { self.new.places ≡ self.old.places }
    {
        insert_along(&mut self.blocks, index / BLOCK, index % BLOCK, number);
    }

    /// Takes the number at an index out.
    pub(crate) fn remove(&mut self, index: usize)
        requires { index < length self.old.numbers }
        ensures numbers { self.new.numbers ≡ remove self.old.numbers index }
        ensures places { self.new.places ≡ self.old.places }
    {
        remove_along(&mut self.blocks, index / BLOCK, index % BLOCK);
    }
}
