ghost use Rattle.std.specs.Prelude.{◌≡◌, ◌-◌, ◌≤◌, length, take, drop, replicate};
ghost use Rattle.grove_sorts.specs.Identifier.{IsIdentifier};
ghost use Rattle.grove_sorts.specs.declared.version.Version.TheVariants.{Two};

use std::cmp::Ordering;
use std::hash::{Hash, Hasher};

// How many bytes an identifier of any version may have.
const LONGEST: usize = 64;

/// Why bytes are no identifier.
#[derive(Clone, Copy, Debug, PartialEq, Eq)]
pub enum IdentFault {
    /// There are none or more than the version allows, the first is no lower-case letter, or another is neither such a letter nor a digit nor an underscore.
    NotAnIdent,
}

/// An identifier of 1 to 64 bytes, held inline.
#[derive(Clone, Copy, Debug)]
pub struct Ident {
    // Zero past the end, so that equal identifiers are equal values.
    bytes: [u8; LONGEST],
    len: u8,
    ghost whole: { length bytes ≡ 64 },
    ghost short: { len ≤ 64 },
    ghost spelled: { IsIdentifier Two (take len bytes) },
    ghost padded: { drop len bytes ≡ replicate (64 - len) 0 },
}

impl Ident {
    ghost use Rattle.grove_sorts.specs.Ident.{ident_bytes};

    // The identifier of these bytes.
    pub(crate) fn new(spelling: &[u8]) -> Ident
        requires { IsIdentifier Two spelling.now }
        ensures { ident_bytes result ≡ spelling.now }
    {
        let mut bytes = [0; LONGEST];
        bytes[..spelling.len()].copy_from_slice(spelling);
        Ident {
            bytes,
            len: spelling.len() as u8,
        }
    }

    /// Its bytes.
    pub fn as_slice(&self) -> &[u8]
        ensures bytes { result.now ≡ ident_bytes self.now }
    {
        &self.bytes[..usize::from(self.len)]
    }
}

impl PartialEq for Ident {
    ghost use Rattle.std.specs.Prelude.{◌==◌};
    ghost use Rattle.std.specs.Ordering.{on};
    ghost use lib.Pointwise.{pointwise};
    ghost use Rattle.std.proofs.Common.{rules};
    ghost use Rattle.std.specs.Cmp.Rules.{comparing};
    ghost use Rattle.grove_sorts.specs.Ident.{ident_bytes};

    ghost eq = { on ident_bytes (pointwise ◌==◌) };

    ghost laws = { Prim.search (comparing, rules) };

    fn eq(&self, other: &Ident) -> bool {
        self.as_slice() == other.as_slice()
    }
}

impl Eq for Ident {
    ghost use Rattle.std.proofs.Common.{rules};
    ghost use Rattle.std.specs.Cmp.Rules.{comparing};

    ghost laws = { Prim.search (comparing, rules) };
}

impl PartialOrd for Ident {
    ghost use Rattle.std.specs.Ordering.{nat_cmp, on, as_partial_cmp};
    ghost use Rattle.std.specs.Cmp.Lexicographic.{slice_cmp};
    ghost use Rattle.std.specs.Cmp.{partial_order_from_own_ties};
    ghost use Rattle.std.proofs.Common.{rules};
    ghost use Rattle.std.specs.Cmp.Rules.{comparing};
    ghost use Rattle.grove_sorts.specs.Ident.{ident_bytes};

    ghost partial_cmp = { as_partial_cmp (on ident_bytes (slice_cmp nat_cmp)) };

    ghost laws = { partial_order_from_own_ties (Prim.search (comparing, rules)) (Prim.search (comparing, rules)) };

    fn partial_cmp(&self, other: &Ident) -> Option<Ordering> {
        Some(self.cmp(other))
    }
}

impl Ord for Ident {
    ghost use Rattle.std.specs.Ordering.{nat_cmp, on};
    ghost use Rattle.std.specs.Cmp.Lexicographic.{slice_cmp};
    ghost use Rattle.std.proofs.Common.{rules};
    ghost use Rattle.std.specs.Cmp.Rules.{comparing};
    ghost use Rattle.grove_sorts.specs.Ident.{ident_bytes};

    ghost cmp = { on ident_bytes (slice_cmp nat_cmp) };

    ghost total = { Prim.search (comparing, rules) };

    ghost matches_partial_cmp = { Prim.search (comparing, rules) };

    ghost matches_eq = { Prim.search (comparing, rules) };

    fn cmp(&self, other: &Ident) -> Ordering {
        self.as_slice().cmp(other.as_slice())
    }
}

impl Hash for Ident {
    ghost use Rattle.std.specs.Hash as fed;
    ghost use Rattle.std.specs.Cmp.Rules.{hashing};
    ghost use Rattle.std.proofs.Common.{rules};
    ghost use Rattle.grove_sorts.specs.Ident.{ident_bytes};

    ghost hash_input = { λ ident. fed.str (ident_bytes ident) };

    ghost respects_eq = { Prim.search (hashing, rules) };

    fn hash<H: Hasher>(&self, state: &mut H) {
        state.write(self.as_slice());
        state.write_u8(0xff);
    }
}
