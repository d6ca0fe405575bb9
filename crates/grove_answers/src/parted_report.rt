ghost use Rattle.std.specs.Prelude.{◌≡◌, List, OnOk};
ghost use Rattle.grove_terms.specs.declared.node.Node.{Node};
ghost use Rattle.marking.specs.Marking.{MarkedNode};

use crate::report::Report;
use std::alloc::Global;
use text_parts::NoMemory;

/// A report that can take in the trees of a list in parts, side by side.
pub(crate) trait PartedReport: Report {
    /// No tree was taken in.
    ghost is_blank: { Self → Type 0 };

    /// A report for the trees of a later part.
    fn blank(alloc: Global) -> Self
        ensures { is_blank result };

    /// Takes in the trees that a blank report took in.
    fn join(&mut self, part: &Self) -> Result<(), NoMemory>
        ensures { OnOk result ((blank : Self) (trees : List (List Node)) (marked : List (List MarkedNode)) → is_blank blank
            → Self.takes blank trees marked part.now → Self.takes self.old trees marked self.new) };
}
