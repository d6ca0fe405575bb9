ghost use Rattle.std.specs.Prelude.{◌≡◌, List, ℕ};
ghost use Rattle.grove_edits.specs.Graph.{Graph, IsSame};
ghost use Rattle.grove_answers.specs.declared.counts.Counts.{Counts};
ghost use Rattle.grove_answers.specs.Counts.{AreCounts};
ghost use Rattle.grove_answers.specs.Texts.{IsCanonicalText, IsPrintText, IsCheckText};

/// Law: graphs that are the same have the same text of each kind and the same counts, and one.
pub fn same_graphs_have_one_text()
    ensures canonical { (g h : Graph) (x y : List ℕ) → IsSame g h → IsCanonicalText g x → IsCanonicalText h y → x ≡ y }
    ensures print { (g h : Graph) (x y : List ℕ) → IsSame g h → IsPrintText g x → IsPrintText h y → x ≡ y }
    ensures check { (g h : Graph) (x y : List ℕ) → IsSame g h → IsCheckText g x → IsCheckText h y → x ≡ y }
    ensures counts { (g h : Graph) (x y : Counts) → IsSame g h → AreCounts g x → AreCounts h y → x ≡ y }
{}
