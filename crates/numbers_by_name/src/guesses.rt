use grove_names::Name;
use std::alloc::Global;

// The least size of the table.
const SMALLEST: usize = 16;

// Odd numbers with well mixed bits: the names of an author, and those of different authors, come to lie apart in the table.
const COUNTER_SPREAD: u64 = 0x9e37_79b9_7f4a_7c15;

const AUTHOR_SPREAD: u64 = 0xd6e8_feb8_6659_fd93;

/// A table that tells where what has a name probably stands in a list. Where two names meet in it, it forgets the older one. So what
/// it tells is to be checked, and the table takes no part in what is promised.
#[derive(Drop)]
pub struct Guesses {
    // Their number is a power of two.
    slots: Vec<u32>,
}

impl Guesses {
    /// A table that knows of no name.
    pub fn new(alloc: Global) -> Guesses {
        Guesses {
            slots: Vec::new(alloc),
        }
    }

    fn slot(&self, name: Name) -> usize {
        let spread = name
            .counter
            .wrapping_mul(COUNTER_SPREAD)
            .wrapping_add(u64::from(name.author).wrapping_mul(AUTHOR_SPREAD));
        // The upper bits are the best mixed ones.
        (spread >> u32::BITS) as usize & self.slots.len().wrapping_sub(1)
    }

    /// Where what has the name stands, if anywhere and if it is not forgotten.
    pub fn guess(&self, name: Name) -> usize {
        match self.slots.get(self.slot(name)) {
            Some(place) => *place as usize,
            None => 0,
        }
    }

    /// Takes note of where what has a name stands.
    pub fn note(&mut self, name: Name, place: usize) {
        let slot = self.slot(name);
        if let Ok(place) = u32::try_from(place)
            && slot < self.slots.len()
        {
            self.slots[slot] = place;
        }
    }

    /// Keeps the table at least twice as long as a list of so many, as far as there is memory, and answers whether it became longer; then
    /// what stands in the list is to be noted anew.
    pub fn grow_for(&mut self, count: usize) -> bool {
        let size = self.slots.len();
        count > size / 2
            && self
                .slots
                .resize(SMALLEST.max(size.saturating_mul(2)), 0)
                .is_ok()
    }
}
