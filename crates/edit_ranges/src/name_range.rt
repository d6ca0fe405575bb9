ghost use Rattle.std.specs.Prelude.{◌≡◌};
ghost use Rattle.edit_ranges.specs.Ranges.{tells, ends_before, is_apart};
ghost use Rattle.edit_ranges.specs.Facts.{alone, meets};

use crate::fact::Fact;
use crate::told::Told;
use grove_names::Name;

/// Names by one author of which the same is told: those with the counters from `first` to `last`.
#[derive(Clone, Copy, Debug, PartialEq, Eq)]
pub struct NameRange {
    pub told: Told,
    pub author: u32,
    pub first: u64,
    pub last: u64,
}

impl NameRange {
    // The range of one name.
    pub(crate) fn alone(fact: &Fact) -> NameRange
        ensures { result ≡ alone fact.now }
    {
        NameRange {
            told: fact.told,
            author: fact.name.author,
            first: fact.name.counter,
            last: fact.name.counter,
        }
    }

    // Whether a fact that is not before the last of the range lies in it or right behind it.
    pub(crate) fn meets(&self, fact: &Fact) -> bool
        ensures { result ≡ meets self.now fact.now }
    {
        self.told == fact.told
            && self.author == fact.name.author
            && fact.name.counter.saturating_sub(self.last) <= 1
    }

    /// Whether this is told of the name.
    pub fn tells(&self, told: Told, name: Name) -> bool
        ensures { result ≡ tells self.now told name }
    {
        self.told == told
            && self.author == name.author
            && self.first <= name.counter
            && name.counter <= self.last
    }

    // Whether all that the range tells comes before this of the name.
    pub(crate) fn ends_before(&self, told: Told, name: Name) -> bool
        ensures { result ≡ ends_before self.now told name }
    {
        if self.told != told {
            return self.told < told;
        }
        if self.author != name.author {
            return self.author < name.author;
        }
        self.last < name.counter
    }

    // Whether a range comes after this one, and not right behind it.
    pub(crate) fn is_apart(&self, next: &NameRange) -> bool
        ensures { result ≡ is_apart self.now next.now }
    {
        if self.told != next.told {
            return self.told < next.told;
        }
        if self.author != next.author {
            return self.author < next.author;
        }
        self.last < next.first && next.first - self.last > 1
    }
}
