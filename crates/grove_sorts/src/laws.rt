ghost use Rattle.std.specs.Prelude.{◌≡◌, ◌≢◌, ℕ, ◌<◌, ◌≤◌, length, [], Some, IsTrue, slice_get, is_some};
ghost use Rattle.std.specs.List.{AllByRecursion};
ghost use Rattle.std.specs.Cmp.{IsTotalOrder};
ghost use Rattle.std.specs.declared.cmp.Ordering.TheVariants.{Equal};
ghost use Rattle.text_parts.specs.Separated.{Lacks};
ghost use Rattle.grove_sorts.specs.declared.ident.Ident.{Ident};
ghost use Rattle.grove_sorts.specs.declared.version.Version.TheVariants.{Two};
ghost use Rattle.grove_sorts.specs.declared.ctor.Ctor.{Ctor};
ghost use Rattle.grove_sorts.specs.declared.plain.Plain.{Plain};
ghost use Rattle.grove_sorts.specs.declared.position.Position.{Position};
ghost use Rattle.grove_sorts.specs.declared.sort.Sort.TheVariants.{Top, Pat, Typ};
ghost use Rattle.grove_sorts.specs.Identifier.{IsIdentifier};
ghost use Rattle.grove_sorts.specs.Ident.{ident_bytes, ident_cmp};
ghost use Rattle.grove_sorts.specs.Ctor.{InRange, ctor_text, ctor_cmp, positions, Rises, sort_at, sort_of_ctor};
ghost use Rattle.grove_sorts.specs.Plain.{plain_ctor, plain_of, plain_number, plains};
ghost use Rattle.grove_sorts.specs.Position.{position_text, position_cmp};

use crate::ctor::Ctor;
use crate::ident::Ident;
use crate::plain::Plain;
use crate::position::Position;

/// An identifier is its bytes, in which none stands below the digits; identifiers are ordered by them, and only equal ones tie.
pub fn identifiers_are_ordered()
    ensures spelled { (a : Ident) → IsIdentifier Two (ident_bytes a) }
    ensures unbroken { (c : ℕ) (a : Ident) → c < 48 → Lacks c (ident_bytes a) }
    ensures exact { (a b : Ident) → ident_bytes a ≡ ident_bytes b → a ≡ b }
    ensures total { IsTotalOrder ident_cmp }
    ensures ties { (a b : Ident) → ident_cmp a b ≡ Equal → a ≡ b }
    ensures compared { (a b : Ident) → ⟦<Ident as Ord>⟧.cmp a b ≡ ident_cmp a b }
{}

/// Constructors are ordered by the table, and only equal ones tie.
pub fn constructors_are_ordered()
    ensures total { IsTotalOrder ctor_cmp }
    ensures ties { (a b : Ctor) → ctor_cmp a b ≡ Equal → a ≡ b }
    ensures compared { (a b : Ctor) → ⟦<Ctor as Ord>⟧.cmp a b ≡ ctor_cmp a b }
{}

/// Each constructor that has a position is a plain one. Plain ones are ordered as their constructors, so only equal ones tie, and each
/// stands among all at the index that is its number.
pub fn plain_constructors_are_their_constructors()
    ensures one { (a b : Plain) → plain_ctor a ≡ plain_ctor b → a ≡ b }
    ensures each { (ctor : Ctor) (position : Position) → IsTrue (is_some (sort_at ctor position)) → plain_ctor (plain_of ctor) ≡ ctor }
    ensures compared { (a b : Plain) → ⟦<Plain as Ord>⟧.cmp a b ≡ ctor_cmp (plain_ctor a) (plain_ctor b) }
    ensures numbered { (a : Plain) → slice_get plains (plain_number a) ≡ Some a }
{}

/// Positions are ordered by the table, and only equal ones tie.
pub fn positions_are_ordered()
    ensures total { IsTotalOrder position_cmp }
    ensures ties { (a b : Position) → position_cmp a b ≡ Equal → a ≡ b }
    ensures compared { (a b : Position) → ⟦<Position as Ord>⟧.cmp a b ≡ position_cmp a b }
{}

/// A constructor is its text, in which no byte stands below the digits.
pub fn constructors_are_their_texts()
    ensures one { (a b : Ctor) → InRange a → InRange b → ctor_text a ≡ ctor_text b → a ≡ b }
    ensures unbroken { (c : ℕ) (ctor : Ctor) → c < 48 → InRange ctor → Lacks c (ctor_text ctor) }
{}

/// A position is its word, in which no byte stands below the digits.
pub fn positions_are_their_words()
    ensures one { (a b : Position) → position_text a ≡ position_text b → a ≡ b }
    ensures unbroken { (c : ℕ) (position : Position) → c < 48 → Lacks c (position_text position) }
{}

/// What all rows have in common. The positions of each rise, so none stands twice; a row has at most five; and each is found with its
/// sort. No child is a whole program, the children of a type are types, and a pattern has none.
pub fn rows_are_in_order()
    ensures rise { (ctor : Ctor) → Rises 0 (positions ctor) }
    ensures few { (ctor : Ctor) → length (positions ctor) ≤ 5 }
    ensures found { (ctor : Ctor) → AllByRecursion (λ place. sort_at ctor place.0 ≡ Some place.1) (positions ctor) }
    ensures no_top { (ctor : Ctor) → AllByRecursion (λ place. place.1 ≢ Top) (positions ctor) }
    ensures types { (ctor : Ctor) → sort_of_ctor ctor ≡ Typ → AllByRecursion (λ place. place.1 ≡ Typ) (positions ctor) }
    ensures patterns { (ctor : Ctor) → sort_of_ctor ctor ≡ Pat → positions ctor ≡ [] }
{}
