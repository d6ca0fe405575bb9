ghost use Rattle.std.specs.Prelude.{◌≡◌, ◌≢◌, [], IfSome, IfNone};
ghost use Rattle.grove_sorts.specs.Row.{row};
ghost use Rattle.grove_sorts.specs.Ctor.{IsPlain, ctor_text, positions, sort_at, sort_of_ctor};
ghost use Rattle.grove_sorts.specs.Plain.{plain_ctor, plain_number, plains};
ghost use Rattle.grove_sorts.specs.declared.plain.Plain.{Plain};
ghost use Rattle.grove_sorts.specs.declared.sort.Sort.{Sort};

use crate::ctor::Ctor;
use crate::position::Position;
use crate::sort::Sort;
use crate::table::sort_in;
use crate::version::Version;

/// A constructor that carries neither an identifier nor a literal, in the order of the table: a byte where a constructor is 72.
#[derive(Clone, Copy, Debug, PartialEq, Eq, PartialOrd, Ord, Hash)]
pub enum Plain {
    Root,
    Lam,
    Ap,
    Plus,
    LitTrue,
    LitFalse,
    Choose,
    Pair,
    Fst,
    Snd,
    TNum,
    TBool,
    TArrow,
    TProd,
    Let,
    Inl,
    Inr,
    Case,
    TSum,
}

/// All of them, each at the index that is its number.
pub fn all_plain() -> &'static [Plain]
    ensures { result.now ≡ plains }
{
    &[
        Plain::Root,
        Plain::Lam,
        Plain::Ap,
        Plain::Plus,
        Plain::LitTrue,
        Plain::LitFalse,
        Plain::Choose,
        Plain::Pair,
        Plain::Fst,
        Plain::Snd,
        Plain::TNum,
        Plain::TBool,
        Plain::TArrow,
        Plain::TProd,
        Plain::Let,
        Plain::Inl,
        Plain::Inr,
        Plain::Case,
        Plain::TSum,
    ]
}

// What the table says of a constructor.
#[derive(Clone, Copy)]
pub(crate) struct Row {
    pub(crate) word: &'static [u8],
    pub(crate) first: Version,
    pub(crate) sort: Sort,
    pub(crate) places: &'static [(Position, Sort)],
}

impl Row {
    // The row of a constructor of expressions.
    #[inline(always)]
    fn expression(word: &'static [u8], first: Version, places: &'static [(Position, Sort)]) -> Row
        ensures word { result.word.now ≡ word.now }
        ensures first { result.first ≡ first }
        ensures sort { result.sort ≡ Sort.Exp }
        ensures places { result.places.now ≡ places.now }
    {
        Row {
            word,
            first,
            sort: Sort::Exp,
            places,
        }
    }

    // The row of a constructor of types.
    #[inline(always)]
    fn of_types(word: &'static [u8], first: Version, places: &'static [(Position, Sort)]) -> Row
        ensures word { result.word.now ≡ word.now }
        ensures first { result.first ≡ first }
        ensures sort { result.sort ≡ Sort.Typ }
        ensures places { result.places.now ≡ places.now }
    {
        Row {
            word,
            first,
            sort: Sort::Typ,
            places,
        }
    }
}

impl Plain {
    /// The one that a constructor is, or None where it carries something.
    #[inline(always)]
    pub fn of(ctor: &Ctor) -> Option<Plain>
        ensures plain { IfSome result (λ plain. plain_ctor plain ≡ ctor.now) }
        ensures none { IfNone result (positions ctor.now ≡ []) }
    {
        match ctor {
            Ctor::Var(_) | Ctor::Num(_) | Ctor::PVar(_) => None,
            _ => Some(Plain::known(ctor)),
        }
    }

    // The one that a constructor is which carries nothing.
    #[inline(always)]
    pub(crate) fn known(ctor: &Ctor) -> Plain
        requires { IsPlain ctor.now }
        ensures { plain_ctor result ≡ ctor.now }
    {
        match ctor {
            Ctor::Root => Plain::Root,
            Ctor::Lam => Plain::Lam,
            Ctor::Ap => Plain::Ap,
            Ctor::Plus => Plain::Plus,
            Ctor::LitTrue => Plain::LitTrue,
            Ctor::LitFalse => Plain::LitFalse,
            Ctor::Choose => Plain::Choose,
            Ctor::Pair => Plain::Pair,
            Ctor::Fst => Plain::Fst,
            Ctor::Snd => Plain::Snd,
            Ctor::TNum => Plain::TNum,
            Ctor::TBool => Plain::TBool,
            Ctor::TArrow => Plain::TArrow,
            Ctor::TProd => Plain::TProd,
            Ctor::Let => Plain::Let,
            Ctor::Inl => Plain::Inl,
            Ctor::Inr => Plain::Inr,
            Ctor::Case => Plain::Case,
            Ctor::TSum => Plain::TSum,
            Ctor::Var(_) | Ctor::Num(_) | Ctor::PVar(_) => unreachable!(),
        }
    }

    /// The constructor itself.
    #[inline(always)]
    pub fn ctor(self) -> Ctor
        ensures { result ≡ plain_ctor self }
    {
        match self {
            Plain::Root => Ctor::Root,
            Plain::Lam => Ctor::Lam,
            Plain::Ap => Ctor::Ap,
            Plain::Plus => Ctor::Plus,
            Plain::LitTrue => Ctor::LitTrue,
            Plain::LitFalse => Ctor::LitFalse,
            Plain::Choose => Ctor::Choose,
            Plain::Pair => Ctor::Pair,
            Plain::Fst => Ctor::Fst,
            Plain::Snd => Ctor::Snd,
            Plain::TNum => Ctor::TNum,
            Plain::TBool => Ctor::TBool,
            Plain::TArrow => Ctor::TArrow,
            Plain::TProd => Ctor::TProd,
            Plain::Let => Ctor::Let,
            Plain::Inl => Ctor::Inl,
            Plain::Inr => Ctor::Inr,
            Plain::Case => Ctor::Case,
            Plain::TSum => Ctor::TSum,
        }
    }

    // The one whose text this is.
    #[inline(always)]
    pub(crate) fn named(text: &[u8]) -> Option<Plain>
        ensures found { IfSome result (λ plain. text.now ≡ ctor_text (plain_ctor plain)) }
        ensures none { IfNone result ((plain : Plain) → text.now ≢ ctor_text (plain_ctor plain)) }
    {
        match text {
            b"root" => Some(Plain::Root),
            b"lam" => Some(Plain::Lam),
            b"ap" => Some(Plain::Ap),
            b"plus" => Some(Plain::Plus),
            b"true" => Some(Plain::LitTrue),
            b"false" => Some(Plain::LitFalse),
            b"if" => Some(Plain::Choose),
            b"pair" => Some(Plain::Pair),
            b"fst" => Some(Plain::Fst),
            b"snd" => Some(Plain::Snd),
            b"tnum" => Some(Plain::TNum),
            b"tbool" => Some(Plain::TBool),
            b"tarrow" => Some(Plain::TArrow),
            b"tprod" => Some(Plain::TProd),
            b"let" => Some(Plain::Let),
            b"inl" => Some(Plain::Inl),
            b"inr" => Some(Plain::Inr),
            b"case" => Some(Plain::Case),
            b"tsum" => Some(Plain::TSum),
            _ => None,
        }
    }

    // Its row of the table.
    #[inline(always)]
    pub(crate) fn row(self) -> Row
        ensures word { result.word.now ≡ (row (plain_ctor self)).word }
        ensures first { result.first ≡ (row (plain_ctor self)).first }
        ensures sort { result.sort ≡ (row (plain_ctor self)).sort }
        ensures places { result.places.now ≡ (row (plain_ctor self)).positions }
    {
        match self {
            Plain::Root => Row {
                word: b"root",
                first: Version::One,
                sort: Sort::Top,
                places: &[(Position::Main, Sort::Exp)],
            },
            Plain::Lam => Row::expression(
                b"lam",
                Version::One,
                &[
                    (Position::Param, Sort::Pat),
                    (Position::Annot, Sort::Typ),
                    (Position::Body, Sort::Exp),
                ],
            ),
            Plain::Ap => Row::expression(
                b"ap",
                Version::One,
                &[(Position::Fun, Sort::Exp), (Position::Arg, Sort::Exp)],
            ),
            Plain::Plus => Row::expression(
                b"plus",
                Version::One,
                &[(Position::Left, Sort::Exp), (Position::Right, Sort::Exp)],
            ),
            Plain::LitTrue => Row::expression(b"true", Version::One, &[]),
            Plain::LitFalse => Row::expression(b"false", Version::One, &[]),
            Plain::Choose => Row::expression(
                b"if",
                Version::One,
                &[
                    (Position::Test, Sort::Exp),
                    (Position::WhenTrue, Sort::Exp),
                    (Position::WhenFalse, Sort::Exp),
                ],
            ),
            Plain::Pair => Row::expression(
                b"pair",
                Version::One,
                &[(Position::First, Sort::Exp), (Position::Second, Sort::Exp)],
            ),
            Plain::Fst => Row::expression(b"fst", Version::One, &[(Position::Operand, Sort::Exp)]),
            Plain::Snd => Row::expression(b"snd", Version::One, &[(Position::Operand, Sort::Exp)]),
            Plain::TNum => Row::of_types(b"tnum", Version::One, &[]),
            Plain::TBool => Row::of_types(b"tbool", Version::One, &[]),
            Plain::TArrow => Row::of_types(
                b"tarrow",
                Version::One,
                &[(Position::Dom, Sort::Typ), (Position::Cod, Sort::Typ)],
            ),
            Plain::TProd => Row::of_types(
                b"tprod",
                Version::One,
                &[(Position::Left, Sort::Typ), (Position::Right, Sort::Typ)],
            ),
            Plain::Let => Row::expression(
                b"let",
                Version::Two,
                &[
                    (Position::Param, Sort::Pat),
                    (Position::Def, Sort::Exp),
                    (Position::Body, Sort::Exp),
                ],
            ),
            Plain::Inl => Row::expression(b"inl", Version::Two, &[(Position::Operand, Sort::Exp)]),
            Plain::Inr => Row::expression(b"inr", Version::Two, &[(Position::Operand, Sort::Exp)]),
            Plain::Case => Row::expression(
                b"case",
                Version::Two,
                &[
                    (Position::On, Sort::Exp),
                    (Position::LeftParam, Sort::Pat),
                    (Position::LeftBody, Sort::Exp),
                    (Position::RightParam, Sort::Pat),
                    (Position::RightBody, Sort::Exp),
                ],
            ),
            Plain::TSum => Row::of_types(
                b"tsum",
                Version::Two,
                &[(Position::Left, Sort::Typ), (Position::Right, Sort::Typ)],
            ),
        }
    }

    /// The sort of the vertices that have it.
    #[inline(always)]
    pub fn sort(self) -> Sort
        ensures { result ≡ sort_of_ctor (plain_ctor self) }
    {
        self.row().sort
    }

    /// At what index it stands among all.
    #[inline(always)]
    pub fn number(self) -> u32
        ensures { result ≡ plain_number self }
    {
        self as u32
    }

    /// The sort of the children at a position, if it has the position.
    #[inline(always)]
    pub fn position_sort(self, position: Position) -> Option<Sort>
        ensures { result ≡ sort_at (plain_ctor self) position }
    {
        sort_in(self.row().places, position)
    }
}
