ghost use Rattle.std.specs.Prelude.{◌≡◌, ℕ, ◌≤◌, List, ◌++◌, length, take, None};
ghost use Rattle.std.specs.List.{flat_map};
ghost use Rattle.text_parts.specs.Separated.{Lacks};
ghost use Rattle.grove_sorts.specs.declared.version.Version.TheVariants.{Two};
ghost use Rattle.grove_edits.specs.declared.edit.Edit.{Edit};
ghost use Rattle.edit_text.specs.Text.{text_of};
ghost use Rattle.edit_stream.specs.Stream.{StreamState, fresh};
ghost use Rattle.replica_exchange.specs.Send.{joined, ArePieces, edits_by_piece};
ghost use Rattle.replica_exchange.specs.Taker.{TakesAll};

/// Law: bytes have one cut into pieces of a length.
pub fn pieces_are_exact()
    ensures one { (cut : ℕ) (bytes : List ℕ) (a b : List (List ℕ)) → 1 ≤ cut → ArePieces cut bytes a → ArePieces cut bytes b → a ≡ b }
    ensures small { (cut : ℕ) (bytes : List ℕ) (pieces : List (List ℕ)) → 1 ≤ cut → ArePieces cut bytes pieces → length pieces ≤ length bytes }
{}

/// Law: however the lines of some edits are cut into pieces, the edits of the pieces, one after the other, are these edits; and the
/// first pieces are the lines of the edits that they have, with bytes behind them that no LF ends.
pub fn pieces_have_the_edits()
    ensures joined { (edits : List Edit) (pieces : List (List ℕ)) → joined pieces ≡ text_of edits
        → flat_map (λ some. some) (edits_by_piece edits pieces) ≡ edits }
    ensures each { (edits : List Edit) (pieces : List (List ℕ)) → length (edits_by_piece edits pieces) ≡ length pieces }
    ensures front { (edits : List Edit) (pieces : List (List ℕ)) (count : ℕ) → joined pieces ≡ text_of edits
        → (rest : List ℕ) × Lacks 10 rest × (joined (take count pieces) ≡ text_of (flat_map (λ some. some) (take count (edits_by_piece edits pieces))) ++ rest) }
{}

/// Law: whoever takes all pieces of the lines of some edits, as lines of version two, is given the edits of each piece, and meets no fault,
/// neither at the end nor behind any of the first pieces.
pub fn taking_gives_the_edits()
    ensures some { (edits : List Edit) (pieces : List (List ℕ)) → joined pieces ≡ text_of edits
        → (last : StreamState) × TakesAll (fresh Two) pieces (edits_by_piece edits pieces) last × (last.fault ≡ None) }
    ensures one { (edits : List Edit) (pieces : List (List ℕ)) (taken : List (List Edit)) (last : StreamState) → joined pieces ≡ text_of edits
        → TakesAll (fresh Two) pieces taken last → (taken ≡ edits_by_piece edits pieces) × (last.fault ≡ None) }
    ensures front { (edits : List Edit) (pieces : List (List ℕ)) (count : ℕ) (taken : List (List Edit)) (last : StreamState) → joined pieces ≡ text_of edits
        → TakesAll (fresh Two) (take count pieces) taken last → (taken ≡ take count (edits_by_piece edits pieces)) × (last.fault ≡ None) }
{}
