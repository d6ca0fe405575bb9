ghost use Rattle.std.specs.Prelude.{◌≡◌, ◌++◌, ℕ, List, []};
ghost use Rattle.grove_sorts.specs.declared.version.Version.{Version};
ghost use Rattle.grove_sorts.specs.declared.version.Version.TheVariants.{One, Two};
ghost use Rattle.grove_edits.specs.declared.edit.Edit.{Edit};
ghost use Rattle.grove_edits.specs.Edit.{edit_edge, edit_kind};
ghost use Rattle.edit_text.specs.declared.line_fault.LineFault.{LineFault};
ghost use Rattle.edit_text.specs.Line.{form, Spells, HasFault};
ghost use Rattle.edit_text.specs.Text.{line_of, SpellsAll, IsMalformed, HasRest};
ghost use Rattle.edit_text.specs.Whole.{header, IsTextOf, IsMalformedText, HasTextRest};

/// Law: in version two each edit has a line; no line spells two edits or has two first faults or both; no edit's line is a proper prefix of another's; and what a line spells in version one it spells in version two.
pub fn lines_are_exact()
    ensures each_in_two { (edit : Edit) → Spells Two (form (edit_kind edit) (edit_edge edit)) edit }
    ensures one_edit { (version : Version) (line : List ℕ) (a b : Edit) → Spells version line a → Spells version line b → a ≡ b }
    ensures edit_or_fault { (version : Version) (line : List ℕ) (edit : Edit) (fault : LineFault) → Spells version line edit → HasFault version line fault → ⊥ }
    ensures one_fault { (version : Version) (line : List ℕ) (a b : LineFault) → HasFault version line a → HasFault version line b → a ≡ b }
    ensures no_prefix { (a b : Edit) (more : List ℕ) → line_of a ++ more ≡ line_of b → more ≡ [] }
    ensures kept_in_two { (line : List ℕ) (edit : Edit) → Spells One line edit → Spells Two line edit }
{}

/// Law: lines are those of one list of edits at most, or they have one first bad line with one fault, or a rest, and not two of these.
pub fn texts_are_exact()
    ensures one_list { (version : Version) (text : List ℕ) (a b : List Edit) → SpellsAll version text a → SpellsAll version text b → a ≡ b }
    ensures not_malformed { (version : Version) (text : List ℕ) (edits : List Edit) (line : ℕ) (fault : LineFault) → SpellsAll version text edits → IsMalformed version text line fault → ⊥ }
    ensures no_rest { (version : Version) (text : List ℕ) (edits : List Edit) (line : ℕ) → SpellsAll version text edits → HasRest version text line → ⊥ }
    ensures one_line { (version : Version) (text : List ℕ) (m n : ℕ) (f g : LineFault) → IsMalformed version text m f → IsMalformed version text n g → (m ≡ n) × (f ≡ g) }
    ensures malformed_or_rest { (version : Version) (text : List ℕ) (m n : ℕ) (fault : LineFault) → IsMalformed version text m fault → HasRest version text n → ⊥ }
    ensures one_rest { (version : Version) (text : List ℕ) (m n : ℕ) → HasRest version text m → HasRest version text n → m ≡ n }
{}

/// Law: a text is of one version, and that of one list of edits at most, or it has one first bad line with one fault, or a rest, and not two of these; and a text of version one spells the same edits behind the line of version two.
pub fn whole_texts_are_exact()
    ensures one_list { (text : List ℕ) (v w : Version) (a b : List Edit) → IsTextOf text v a → IsTextOf text w b → (v ≡ w) × (a ≡ b) }
    ensures not_malformed { (text : List ℕ) (version : Version) (edits : List Edit) (line : ℕ) (fault : LineFault) → IsTextOf text version edits → IsMalformedText text line fault → ⊥ }
    ensures no_rest { (text : List ℕ) (version : Version) (edits : List Edit) (line : ℕ) → IsTextOf text version edits → HasTextRest text line → ⊥ }
    ensures one_line { (text : List ℕ) (m n : ℕ) (f g : LineFault) → IsMalformedText text m f → IsMalformedText text n g → (m ≡ n) × (f ≡ g) }
    ensures malformed_or_rest { (text : List ℕ) (m n : ℕ) (fault : LineFault) → IsMalformedText text m fault → HasTextRest text n → ⊥ }
    ensures one_rest { (text : List ℕ) (m n : ℕ) → HasTextRest text m → HasTextRest text n → m ≡ n }
    ensures kept_in_two { (text : List ℕ) (edits : List Edit) → IsTextOf text One edits → IsTextOf (header Two ++ text) Two edits }
{}
