//! Laws of the definitions that the table's calls answer by. They run no code.
ghost use Rattle.std.specs.Prelude.{◌≡◌, true, false, is_some, IfSome, IsSomeAnd, option_and_then};
ghost use Rattle.type_core.specs.Typ.{Typ, Unknown, Num, Boolean, is_consistent, meet, is_below};

/// A type is consistent with itself.
pub fn consistency_is_reflexive()
    ensures { (t : Typ) → is_consistent t t ≡ true }
{}

/// Consistency goes both ways.
pub fn consistency_is_symmetric()
    ensures { (s t : Typ) → is_consistent s t ≡ is_consistent t s }
{}

/// Consistency does not go on from one type to the next.
pub fn consistency_is_not_transitive()
    ensures first { is_consistent Num Unknown ≡ true }
    ensures second { is_consistent Unknown Boolean ≡ true }
    ensures not_both { is_consistent Num Boolean ≡ false }
{}

/// At least as precise is an order of types.
pub fn precision_is_an_order()
    ensures reflexive { (t : Typ) → is_below t t ≡ true }
    ensures transitive { (s t u : Typ) → is_below s t ≡ true → is_below t u ≡ true → is_below s u ≡ true }
    ensures antisymmetric { (s t : Typ) → is_below s t ≡ true → is_below t s ≡ true → s ≡ t }
{}

/// Two types have a meet exactly where they are consistent, and it is consistent with both.
pub fn meet_is_where_consistent()
    ensures defined { (s t : Typ) → is_some (meet s t) ≡ is_consistent s t }
    ensures with_both { (s t : Typ) → IfSome (meet s t) (λ m. (is_consistent m s ≡ true) × (is_consistent m t ≡ true)) }
{}

/// The meet is at least as precise as both types, and no more precise than it must be.
pub fn meet_is_greatest_below_both()
    ensures below { (s t : Typ) → IfSome (meet s t) (λ m. (is_below m s ≡ true) × (is_below m t ≡ true)) }
    ensures greatest { (s t u : Typ) → is_below u s ≡ true → is_below u t ≡ true → IsSomeAnd (meet s t) (λ m. is_below u m ≡ true) }
{}

/// The meet does not depend on the order of the types, and of three types not on which two are met first.
pub fn meet_is_a_semilattice()
    ensures idempotent { (t : Typ) → meet t t ≡ Some t }
    ensures commutative { (s t : Typ) → meet s t ≡ meet t s }
    ensures associative { (s t u : Typ) → option_and_then (λ m. meet m u) (meet s t) ≡ option_and_then (λ m. meet s m) (meet t u) }
{}
