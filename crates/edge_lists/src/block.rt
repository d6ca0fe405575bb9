ghost use Rattle.std.specs.Prelude.{◌≡◌, ◌+◌, ◌<◌, ◌≤◌, ◌==◌, [], ◌∷◌, ◌++◌, length, slice_index, insert, remove, IfOk};
ghost use Rattle.edge_lists.specs.Blocks.{block_len};

use std::alloc::Global;
use std::collections::VecDeque;
use std::marker::Model;
use text_parts::NoMemory;

/// How many numbers a block has memory for.
pub(crate) const BLOCK: usize = 4096;

/// Some numbers, at most as many as a block has memory for. One is put first or taken from the front without moving the others.
#[derive(Drop)]
pub(crate) struct Block {
    numbers: VecDeque<u32>,
}

impl Model for Block {
    ghost use Rattle.std.specs.Prelude.{List, ℕ, ◌≤◌, length};
    ghost use Rattle.std.specs.VecDeque.{deque_capacity};
    ghost use Rattle.edge_lists.specs.Blocks.{block_len};

    ghost Value = { List ℕ };

    ghost view = { λ block. block.numbers.items };

    ghost invariant = { λ block. (length block.numbers.items ≤ block_len) × (block_len ≤ deque_capacity block.numbers) };
}

impl Block {
    pub(crate) fn new(alloc: Global) -> Result<Block, NoMemory>
        ensures { IfOk result (λ block. block ≡ []) }
    {
        let numbers = VecDeque::with_capacity(alloc, BLOCK)?;
        Ok(Block { numbers })
    }

    pub(crate) fn is_empty(&self) -> bool
        ensures { result ≡ (length self.now == 0) }
    {
        self.numbers.is_empty()
    }

    pub(crate) fn is_full(&self) -> bool
        ensures full { result ≡ (length self.now == block_len) }
        ensures most { length self.now ≤ block_len }
    {
        self.numbers.len() == BLOCK
    }

    pub(crate) fn number(&self, index: usize) -> u32
        requires { index < length self.now }
        ensures { result ≡ slice_index self.now index }
    {
        self.numbers[index]
    }

    /// Puts a number before those from an index on.
    pub(crate) fn insert(&mut self, index: usize, number: u32)
        requires index { index ≤ length self.old }
        requires place { length self.old < block_len }
        ensures { self.new ≡ insert self.old index number }
    {
        let _had_room = self.numbers.insert(index, number);
    }

    /// Puts a number before those from an index on in a block that is full, and takes the last one out.
    pub(crate) fn displace(&mut self, index: usize, number: u32) -> u32
        requires index { index < length self.old }
        requires full { length self.old ≡ block_len }
        ensures numbers { self.new ++ result ∷ [] ≡ insert self.old index number }
        ensures full { length self.new ≡ block_len }
    {
        let last = self.numbers.pop_back().unwrap();
        let _had_room = self.numbers.insert(index, number);
        last
    }

    /// Takes the number at an index out.
    pub(crate) fn remove(&mut self, index: usize)
        requires { index < length self.old }
        ensures numbers { self.new ≡ remove self.old index }
        ensures count { length self.new + 1 ≡ length self.old }
    {
        let _number = self.numbers.remove(index);
    }

    /// Takes the first number out.
    pub(crate) fn take_first(&mut self) -> u32
        requires { 0 < length self.old }
        ensures { self.old ≡ result ∷ self.new }
    {
        self.numbers.pop_front().unwrap()
    }

    /// Puts a number last.
    pub(crate) fn push(&mut self, number: u32)
        requires { length self.old < block_len }
        ensures { self.new ≡ self.old ++ number ∷ [] }
    {
        self.numbers.push_back_reserved(number);
    }
}
