ghost use Rattle.std.specs.Prelude.{◌≡◌, length};
ghost use Rattle.grove_sorts.specs.Identifier.{IsIdentifier};
ghost use Rattle.grove_sorts.specs.declared.version.Version.TheVariants.{Two};

use crate::ctor::Ctor;
use crate::ident::Ident;
use crate::plain::Plain;
use crate::sort::Sort;

/// An identifier where it stands, in a text or in a constructor.
#[derive(Clone, Copy, Debug)]
pub struct Spelling<'t> {
    bytes: &'t [u8],
    ghost spelled: { IsIdentifier Two bytes.now },
}

impl<'t> Spelling<'t> {
    ghost use Rattle.grove_sorts.specs.Ident.{ident_bytes};
    ghost use Rattle.grove_sorts.specs.Spelled.{spelled_ident};

    // The identifier that bytes spell.
    pub(crate) fn new(bytes: &'t [u8]) -> Spelling<'t>
        requires { IsIdentifier Two bytes.now }
        ensures { ident_bytes (spelled_ident result) ≡ bytes.now }
    {
        Spelling { bytes }
    }

    // An identifier, where it stands.
    fn of(ident: &'t Ident) -> Spelling<'t>
        ensures { spelled_ident result ≡ ident.now }
    {
        Spelling {
            bytes: ident.as_slice(),
        }
    }

    // How many bytes it has.
    pub(crate) fn len(&self) -> usize
        ensures { result ≡ length (ident_bytes (spelled_ident self.now)) }
    {
        self.bytes.len()
    }

    // The identifier itself.
    fn ident(&self) -> Ident
        ensures { result ≡ spelled_ident self.now }
    {
        Ident::new(self.bytes)
    }
}

/// A constructor as a text spells it, in a third of its width: an identifier is lent by the text.
#[derive(Clone, Copy, Debug)]
pub enum SpelledCtor<'t> {
    Plain(Plain),
    Num(u64),
    Var(Spelling<'t>),
    PVar(Spelling<'t>),
}

impl<'t> SpelledCtor<'t> {
    ghost use Rattle.grove_sorts.specs.Ctor.{sort_of_ctor};
    ghost use Rattle.grove_sorts.specs.Spelled.{spelled_ctor};

    /// A constructor, its identifier lent from where it stands.
    pub fn of(ctor: &'t Ctor) -> SpelledCtor<'t>
        ensures { spelled_ctor result ≡ ctor.now }
    {
        match ctor {
            Ctor::Var(ident) => SpelledCtor::Var(Spelling::of(ident)),
            Ctor::Num(literal) => SpelledCtor::Num(*literal),
            Ctor::PVar(ident) => SpelledCtor::PVar(Spelling::of(ident)),
            _ => SpelledCtor::Plain(Plain::known(ctor)),
        }
    }

    /// The constructor itself, in its whole width.
    pub fn ctor(&self) -> Ctor
        ensures { result ≡ spelled_ctor self.now }
    {
        match self {
            SpelledCtor::Plain(plain) => plain.ctor(),
            SpelledCtor::Num(literal) => Ctor::Num(*literal),
            SpelledCtor::Var(spelling) => Ctor::Var(spelling.ident()),
            SpelledCtor::PVar(spelling) => Ctor::PVar(spelling.ident()),
        }
    }

    /// The sort of the vertices that have it.
    #[inline(always)]
    pub fn sort(&self) -> Sort
        ensures { result ≡ sort_of_ctor (spelled_ctor self.now) }
    {
        match self {
            SpelledCtor::Plain(plain) => plain.sort(),
            SpelledCtor::Num(_literal) => Sort::Exp,
            SpelledCtor::Var(_) => Sort::Exp,
            SpelledCtor::PVar(_) => Sort::Pat,
        }
    }
}
