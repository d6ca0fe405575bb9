ghost use Rattle.std.specs.Prelude.{◌≡◌, ℕ, List, [], ◌∷◌, ◌++◌, OnOk};
ghost use Rattle.grove_terms.specs.declared.node.Node.{Node};
ghost use Rattle.marking.specs.Marking.{MarkedNode};
ghost use Rattle.marking.specs.Grove.{IsMarkedTree};
ghost use Rattle.marking.specs.Reading.{meant_nodes};
ghost use Rattle.marking.specs.Numbers.{AreMarkedNodesOf};
ghost use Rattle.grove_printer.specs.declared.section.Section.{Section};

use grove_printer::Section;
use marking::MarkedTree;
use text_parts::NoMemory;
use type_core::TypeTable;

/// What is written of the trees of a graph. It takes them in one after the other, so that one at a time is kept.
pub trait Report {
    /// The heading of a list of so many trees leads from the first state to the second.
    ghost begins: { Self → Section → ℕ → Self → Type 0 };

    /// Some trees with their markings lead from the first state to the second.
    ghost takes: { Self → List (List Node) → List (List MarkedNode) → Self → Type 0 };

    /// A list of so many trees comes.
    fn begin(&mut self, section: Section, trees: usize) -> Result<(), NoMemory>
        ensures { OnOk result (begins self.old section trees self.new) };

    /// The next tree of the list, by its marking.
    fn take(&mut self, marked: &MarkedTree, types: &TypeTable) -> Result<(), NoMemory>
        requires { AreMarkedNodesOf types.now marked.now }
        ensures { OnOk result ((tree : List Node) → IsMarkedTree tree (meant_nodes types.now marked.now)
            → takes self.old (tree ∷ []) (meant_nodes types.now marked.now ∷ []) self.new) };

    ghost takes_none: { (r : Self) → takes r [] [] r };

    ghost takes_more: { (r s t : Self) (a b : List (List Node)) (m n : List (List MarkedNode)) → takes r a m s → takes s b n t → takes r (a ++ b) (m ++ n) t };
}
