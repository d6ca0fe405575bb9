ghost use Rattle.std.specs.Prelude.{◌≡◌, ◌≢◌, ◌<◌, ◌^◌, ◌∷◌, ◌++◌, ℕ, List, decimal, IfSome, IfNone, IsSomeAnd};
ghost use Rattle.grove_names.specs.declared.name.Name.{Name};
ghost use Rattle.grove_names.specs.Name.{name_text, InRange as NameInRange};
ghost use Rattle.grove_sorts.specs.declared.ctor.Ctor.{Ctor};
ghost use Rattle.grove_sorts.specs.declared.ident.Ident.{Ident};
ghost use Rattle.grove_sorts.specs.declared.position.Position.{Position};
ghost use Rattle.grove_sorts.specs.Ctor.{ctor_text, InRange as CtorInRange};
ghost use Rattle.grove_sorts.specs.Ident.{ident_bytes};
ghost use Rattle.grove_sorts.specs.Position.{position_text};
ghost use Rattle.grove_sorts.specs.Version.{IsPositionOf};
ghost use Rattle.session_script.specs.Action.{IsAuthor};
ghost use Rattle.session_script.specs.Statement.{IsReplicaOf};

use grove_names::{Name, read_name};
use grove_sorts::{Ident, Position, Version, read_ident, read_position};
use text_parts::{read_number, split_at_first};

// What stands behind a word that a text begins with.
pub(crate) fn after_word<'a>(text: &'a [u8], word: &[u8]) -> Option<&'a [u8]>
    ensures found { IfSome result (λ rest. text.now ≡ word.now ++ rest.now) }
    ensures none { IfNone result ((rest : List ℕ) → text.now ≢ word.now ++ rest) }
{
    text.strip_prefix(word)
}

// A name and the space behind it, and what stands after them.
pub(crate) fn take_name(text: &[u8]) -> Option<(Name, &[u8])>
    ensures found { IfSome result (λ read. text.now ≡ name_text read.0 ++ 32 ∷ read.1.now) }
    ensures in_range { IfSome result (λ read. NameInRange read.0) }
    ensures only { (name : Name) (rest : List ℕ) → NameInRange name → text.now ≡ name_text name ++ 32 ∷ rest
        → IsSomeAnd result (λ read. (read.0 ≡ name) × (read.1.now ≡ rest)) }
{
    let (part, rest) = split_at_first(text, b' ')?;
    match read_name(part) {
        Ok(name) => Some((name, rest)),
        Err(_) => None,
    }
}

// A position's word in the version and the space behind it, and what stands after them.
pub(crate) fn take_position(version: Version, text: &[u8]) -> Option<(Position, &[u8])>
    ensures found { IfSome result (λ read. text.now ≡ position_text read.0 ++ 32 ∷ read.1.now) }
    ensures of_version { IfSome result (λ read. IsPositionOf version read.0) }
    ensures only { (position : Position) (rest : List ℕ) → IsPositionOf version position → text.now ≡ position_text position ++ 32 ∷ rest
        → IsSomeAnd result (λ read. (read.0 ≡ position) × (read.1.now ≡ rest)) }
{
    let (part, rest) = split_at_first(text, b' ')?;
    let position = read_position(version, part)?;
    Some((position, rest))
}

// An identifier of the version and the space behind it, and what stands after them.
pub(crate) fn take_ident(version: Version, text: &[u8]) -> Option<(Ident, &[u8])>
    ensures found { IfSome result (λ read. text.now ≡ ident_bytes read.0 ++ 32 ∷ read.1.now) }
    ensures of_version { IfSome result (λ read. IsReplicaOf version read.0) }
    ensures only { (ident : Ident) (rest : List ℕ) → IsReplicaOf version ident → text.now ≡ ident_bytes ident ++ 32 ∷ rest
        → IsSomeAnd result (λ read. (read.0 ≡ ident) × (read.1.now ≡ rest)) }
{
    let (part, rest) = split_at_first(text, b' ')?;
    match read_ident(version, part) {
        Ok(ident) => Some((ident, rest)),
        Err(_) => None,
    }
}

// A number and the space behind it, and what stands after them.
pub(crate) fn take_number(text: &[u8]) -> Option<(u64, &[u8])>
    ensures found { IfSome result (λ read. text.now ≡ decimal read.0 ++ 32 ∷ read.1.now) }
    ensures in_range { IfSome result (λ read. read.0 < 2 ^ 64) }
    ensures only { (number : ℕ) (rest : List ℕ) → number < 2 ^ 64 → text.now ≡ decimal number ++ 32 ∷ rest
        → IsSomeAnd result (λ read. (read.0 ≡ number) × (read.1.now ≡ rest)) }
{
    let (part, rest) = split_at_first(text, b' ')?;
    let number = read_number(part)?;
    Some((number, rest))
}

// An author's number and the space behind it, and what stands after them.
pub(crate) fn take_author(text: &[u8]) -> Option<(u32, &[u8])>
    ensures found { IfSome result (λ read. text.now ≡ decimal read.0 ++ 32 ∷ read.1.now) }
    ensures in_range { IfSome result (λ read. IsAuthor read.0) }
    ensures only { (author : ℕ) (rest : List ℕ) → IsAuthor author → text.now ≡ decimal author ++ 32 ∷ rest
        → IsSomeAnd result (λ read. (read.0 ≡ author) × (read.1.now ≡ rest)) }
{
    let (number, rest) = take_number(text)?;
    match u32::try_from(number) {
        Ok(author) => {
            if author == 0 {
                return None;
            }
            Some((author, rest))
        }
        Err(_) => None,
    }
}

// An identifier of the version, which all of the text spells.
pub(crate) fn whole_ident(version: Version, text: &[u8]) -> Option<Ident>
    ensures found { IfSome result (λ ident. text.now ≡ ident_bytes ident) }
    ensures of_version { IfSome result (IsReplicaOf version) }
    ensures none { IfNone result ((ident : Ident) → IsReplicaOf version ident → text.now ≢ ident_bytes ident) }
{
    match read_ident(version, text) {
        Ok(ident) => Some(ident),
        Err(_) => None,
    }
}
