ghost use Rattle.std.specs.declared.alloc.Global.{Global};
ghost use Rattle.std.specs.Prelude.{String, ◌≡◌, ◌≢◌, List, ℕ};
ghost use Rattle.grove_edits.specs.declared.edit.Edit.{Edit};
ghost use Rattle.grove_edits.specs.Graph.{HasSameEdits};
ghost use Rattle.grove_sorts.specs.declared.version.Version.{Version};
ghost use Rattle.edit_text.specs.Whole.{IsTextOf};
ghost use Rattle.replica_core.specs.Content.{Content};
ghost use Rattle.session_report.specs.Taken.{Journals};
ghost use Rattle.grove_top.specs.declared.command.Question.{Question};
ghost use Rattle.grove_top.specs.declared.command.Question.TheVariants.{Merge};
ghost use Rattle.grove_calls.specs.declared.ending.Ending.{Ending};
ghost use Rattle.grove_top.specs.declared.command.Command.TheVariants.{Generate};
ghost use Rattle.grove_top.specs.Words.{AreOf};
ghost use Rattle.grove_calls.specs.Due.{IsDue};
ghost use Rattle.grove_top.specs.Due.{IsAnswered, top_rules};

/// Law: for any words and bytes, and any journals handed out, one ending and one text are due at most.
pub fn one_text_is_due()
    ensures one { (words : List (String Global)) (text : List ℕ) (journals : Journals Content) (s t : Ending) (x y : List ℕ) → IsDue top_rules words text journals s x → IsDue top_rules words text journals t y → (s ≡ t) × (x ≡ y) }
{}

/// Law: for the words of a generated session one text is due, whatever the bytes and the legal journals are.
pub fn one_summary_is_due()
    ensures { (loads : ℕ) (words : List (String Global)) (s t : List ℕ) (journals others : Journals Content) (status other : Ending) (x y : List ℕ) → AreOf (Generate loads) words
        → IsDue top_rules words s journals status x → IsDue top_rules words t others other y → (status ≡ other) × (x ≡ y) }
{}

/// Law: texts of one version that spell the same edits, in any order and with any repeats, get the same answer to each question; those of two versions do too, but to `merge`.
pub fn same_edits_same_text()
    ensures one_version { (question : Question) (version : Version) (s t : List ℕ) (a b : List Edit) (x y : List ℕ) → IsTextOf s version a → IsTextOf t version b
        → HasSameEdits a b → IsAnswered question s x → IsAnswered question t y → x ≡ y }
    ensures any_version { (question : Question) (v w : Version) (s t : List ℕ) (a b : List Edit) (x y : List ℕ) → question ≢ Merge → IsTextOf s v a → IsTextOf t w b
        → HasSameEdits a b → IsAnswered question s x → IsAnswered question t y → x ≡ y }
{}
