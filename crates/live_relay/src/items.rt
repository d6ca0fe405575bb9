ghost use Rattle.std.specs.Prelude.{◌≡◌, ◌≤◌, ◌<◌, ◌+◌, ◌∷◌, [], ◌++◌, length, IfOk, OnOk, OnErr};

use std::alloc::Global;
use std::marker::Model;
use text_parts::NoMemory;

/// What one sender sends, in order. Contracts see the list.
#[derive(Drop)]
pub struct Items<T> {
    items: Vec<T>,
}

impl<T> Model for Items<T> {
    ghost use Rattle.std.specs.Prelude.{List};

    ghost Value = { List T };

    ghost view = { λ list. list.items.items };
}

impl<T> Items<T> {
    pub fn new(alloc: Global) -> Items<T>
        ensures empty { result ≡ [] }
    {
        Items {
            items: Vec::new(alloc),
        }
    }

    /// Makes room for so many further items.
    pub fn reserve(&mut self, further: usize) -> Result<(), NoMemory>
        ensures unchanged { self.new ≡ self.old }
    {
        self.items.reserve_exact(further)?;
        Ok(())
    }

    pub fn as_slice(&self) -> &[T]
        ensures { result.now ≡ self.now }
    {
        &self.items
    }
}

impl<T: Copy> Items<T> {
    /// Appends an item.
    pub fn push(&mut self, item: T) -> Result<(), NoMemory>
        ensures appended { OnOk result (self.new ≡ self.old ++ item ∷ []) }
        ensures unchanged { OnErr result (self.new ≡ self.old) }
    {
        self.items.push(item)?;
        Ok(())
    }

    /// The items of a slice.
    pub fn of(alloc: Global, items: &[T]) -> Result<Items<T>, NoMemory>
        ensures { IfOk result (λ made. made ≡ items.now) }
    {
        let mut all = Items::new(alloc);
        all.reserve(items.len())?;
        for item in items {
            all.push(*item)?;
        }
        Ok(all)
    }
}
