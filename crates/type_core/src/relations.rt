ghost use Rattle.std.specs.Prelude.{◌≡◌, IfSome};
ghost use Rattle.type_core.specs.Heads.{IsPairingOf};
ghost use Rattle.type_core.specs.Pairings.{is_consistent_pairing};
ghost use Rattle.type_core.specs.Meets.{IsMeetOf};
ghost use Rattle.type_core.specs.Relations.{IsRelationOf};

use crate::heads::Pairing;
use crate::table::TypeTable;
use crate::type_id::TypeId;
use text_parts::NoMemory;

// What was found of two types.
#[derive(Clone, Copy)]
pub(crate) enum Relation {
    // They are not consistent.
    Apart,
    // They are consistent, and their meet was not found yet.
    Consistent,
    // This is their meet.
    Meets(TypeId),
}

impl TypeTable {
    // What was found of two types before.
    pub(crate) fn known(&self, pairing: Pairing) -> Option<Relation>
        ensures right { IfSome result (IsRelationOf self.now pairing) }
        ensures within { IfSome result (λ _. IsPairingOf self.now pairing) }
    {
        self.relations.get(&pairing).copied()
    }

    // Whether two types are consistent, where that was found before.
    pub(crate) fn known_consistency(&self, pairing: Pairing) -> Option<bool>
        ensures { IfSome result (λ answer. answer ≡ is_consistent_pairing self.now pairing) }
    {
        match self.known(pairing)? {
            Relation::Apart => Some(false),
            Relation::Consistent => Some(true),
            Relation::Meets(_) => Some(true),
        }
    }

    // The meet of two types, where that was found before.
    pub(crate) fn known_meet(&self, pairing: Pairing) -> Option<TypeId>
        ensures { IfSome result (IsMeetOf self.now pairing) }
    {
        match self.known(pairing)? {
            Relation::Apart | Relation::Consistent => None,
            Relation::Meets(m) => Some(m),
        }
    }

    // Keeps what was found of two types.
    pub(crate) fn keep(&mut self, pairing: Pairing, relation: Relation) -> Result<(), NoMemory>
        requires within { IsPairingOf self.old pairing }
        requires relation { IsRelationOf self.old pairing relation }
        ensures unchanged { self.new ≡ self.old }
    {
        self.relations.insert(pairing, relation)?;
        Ok(())
    }
}
