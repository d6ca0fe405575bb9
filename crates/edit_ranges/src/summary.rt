ghost use Rattle.std.specs.Prelude.{◌≡◌, ◌++◌, OnOk, OnErr};
ghost use Rattle.edit_ranges.specs.Ranges.{tell};
ghost use Rattle.edit_ranges.specs.Text.{summary_text};

use crate::name_range::NameRange;
use crate::telling::tell;
use crate::told::Told;
use crate::writing::write_ranges;
use grove_names::Name;
use std::marker::Model;
use text_parts::NoMemory;

/// What a replica has: of which names it has edges or vertices, and which edges are deleted. Contracts see the list of its ranges.
#[derive(Debug, Drop)]
pub struct Summary {
    pub(crate) ranges: Vec<NameRange>,
}

impl Model for Summary {
    ghost use Rattle.std.specs.Prelude.{◌≡◌, true, List};
    ghost use Rattle.edit_ranges.specs.declared.name_range.NameRange.{NameRange};
    ghost use Rattle.edit_ranges.specs.Ranges.{are_ranges};

    ghost Value = { List NameRange };

    ghost view = { λ summary. summary.ranges.items };

    ghost invariant = { λ summary. are_ranges summary.ranges.items ≡ true };
}

impl Summary {
    /// The ranges in order: what is told of `Named` first, then by author and counter.
    pub fn as_slice(&self) -> &[NameRange]
        ensures { result.now ≡ self.now }
    {
        &self.ranges
    }

    /// Whether this is told of the name, by a binary search.
    pub fn tells(&self, told: Told, name: Name) -> bool
        ensures { result ≡ tell self.now told name }
    {
        tell(&self.ranges, told, name)
    }

    /// Appends the text: a line for each range.
    pub fn append_text(&self, out: &mut Vec<u8>) -> Result<(), NoMemory>
        ensures appended { OnOk result (out.new.items ≡ out.old.items ++ summary_text self.now) }
        ensures unchanged { OnErr result (out.new.items ≡ out.old.items) }
    {
        write_ranges(&self.ranges, out)
    }
}
