ghost use Rattle.std.specs.Prelude.{◌≡◌, ◌≢◌, ℕ, ◌+◌, ◌-◌, ◌^◌, ◌<◌, List, [], ◌++◌, length, Some, None};
ghost use Rattle.std.specs.List.{flat_map};
ghost use Rattle.grove_sorts.specs.declared.version.Version.{Version};
ghost use Rattle.grove_edits.specs.declared.edit.Edit.{Edit};
ghost use Rattle.edit_text.specs.declared.line_fault.LineFault.{LineFault};
ghost use Rattle.edit_text.specs.Text.{SpellsAll, IsMalformed, HasRest};
ghost use Rattle.edit_stream.specs.Stream.{StreamState, fresh, next_line, Feeds, FeedsAll};

/// Law: pieces fed one after the other give what the joined piece gives, and a piece has one answer.
pub fn cuts_do_not_matter()
    ensures joined { (old middle new : StreamState) (first second : List ℕ) (some more : List Edit)
        → Feeds old first some middle → Feeds middle second more new → Feeds old (first ++ second) (some ++ more) new }
    ensures all { (version : Version) (pieces : List (List ℕ)) (edits : List Edit) (new : StreamState) → FeedsAll (fresh version) pieces edits new → Feeds (fresh version) (flat_map (λ piece. piece) pieces) edits new }
    ensures one_answer { (old new other : StreamState) (piece : List ℕ) (edits more : List Edit)
        → Feeds old piece edits new → Feeds old piece more other → (edits ≡ more) × (new ≡ other) }
{}

/// Law: what a stream gives and keeps of a text, whichever way it was cut, is what the text says.
pub fn a_stream_reads_its_text()
    ensures edits { (version : Version) (text : List ℕ) (edits : List Edit) (stream : StreamState) → Feeds (fresh version) text edits stream
        → stream.fault ≡ None → stream.kept ≡ [] → SpellsAll version text edits }
    ensures rest { (version : Version) (text : List ℕ) (edits : List Edit) (stream : StreamState) → Feeds (fresh version) text edits stream
        → stream.fault ≡ None → stream.kept ≢ [] → HasRest version text (length edits + 1) }
    ensures malformed { (version : Version) (text : List ℕ) (edits : List Edit) (stream : StreamState) (fault : LineFault) → Feeds (fresh version) text edits stream
        → stream.fault ≡ Some fault → IsMalformed version text (length edits + 1) fault }
    ensures number { (version : Version) (text : List ℕ) (edits : List Edit) (stream : StreamState) → Feeds (fresh version) text edits stream
        → length edits < 2 ^ 64 - 1 → next_line stream ≡ length edits + 1 }
{}
