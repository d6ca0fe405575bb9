ghost use Rattle.std.specs.Prelude.{◌≡◌, ℕ, [], Some, IfSome, IfNone, IfOk, OnOk, OnErr};
ghost use Rattle.std.specs.Option.{option_map};
ghost use Rattle.grove_names.specs.declared.name.Name.{Name};
ghost use Rattle.numbers_by_name.specs.ByName.{all_numbers, numbers_of, name_by, with_number, IsLastBefore, HasNoneBefore};

use crate::pages::Pages;
use grove_names::Name;
use std::alloc::Global;
use std::marker::Model;
use text_parts::NoMemory;

/// Numbers, each under a name. The greatest name comes first, and the numbers of a name stand in the order in which they were added.
#[derive(Drop)]
pub struct NumbersByName {
    alloc: Global,
    pages: Pages,
}

impl Model for NumbersByName {
    ghost use Rattle.numbers_by_name.specs.ByName.{Lists};
    ghost use Rattle.numbers_by_name.specs.Pages.{lists_of, IsWhole};

    ghost Value = { Lists };

    ghost view = { λ numbers. lists_of numbers.pages };

    ghost invariant = { λ numbers. IsWhole numbers.pages };
}

impl NumbersByName {
    /// No numbers.
    pub fn new(alloc: Global) -> NumbersByName
        ensures { result ≡ [] }
    {
        NumbersByName {
            alloc,
            pages: Pages::new(alloc),
        }
    }

    /// Adds a number behind those that the name has.
    pub fn add(&mut self, name: Name, number: u32) -> Result<(), NoMemory>
        ensures added { OnOk result ((n : Name) → numbers_of self.new n ≡ with_number name number (numbers_of self.old) n) }
        ensures unchanged { OnErr result (self.new ≡ self.old) }
    {
        self.pages.add(self.alloc, name, number)
    }

    /// The numbers of a name.
    pub fn with_name(&self, name: Name) -> &[u32]
        ensures { result.now ≡ numbers_of self.now name }
    {
        self.pages.numbers(name)
    }

    /// All numbers: those of the least name first, and then those of each greater one.
    pub fn in_order(&self, alloc: Global) -> Result<Vec<u32>, NoMemory>
        ensures { IfOk result (λ numbers. numbers.items ≡ all_numbers self.now) }
    {
        let mut numbers = Vec::new(alloc);
        self.pages.append_all(&mut numbers)?;
        Ok(numbers)
    }

    /// The greatest counter under which the author has a name with numbers, and the numbers; of the counters that are less than
    /// `before` alone, where that is given. None where there is no such counter.
    pub fn last_before(&self, author: u32, before: Option<u64>) -> Option<(u64, &[u32])>
        ensures counter { IfSome result (λ found. IsLastBefore self.now author before found.0) }
        ensures numbers { IfSome result (λ found. found.1.now ≡ numbers_of self.now (name_by author found.0)) }
        ensures none { IfNone result (HasNoneBefore self.now author before) }
        ensures only { (counter : ℕ) → IsLastBefore self.now author before counter → option_map (λ found. found.0) result ≡ Some counter }
    {
        self.pages.last_before(author, before)
    }
}
