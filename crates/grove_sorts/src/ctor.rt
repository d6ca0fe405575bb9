use crate::ident::Ident;

/// What a vertex is, in the order of the table.
#[derive(Clone, Copy, Debug, PartialEq, Eq, PartialOrd, Ord, Hash)]
pub enum Ctor {
    /// The root of the program.
    Root,
    Var(Ident),
    Lam,
    Ap,
    Num(u64),
    Plus,
    LitTrue,
    LitFalse,
    Choose,
    Pair,
    Fst,
    Snd,
    PVar(Ident),
    TNum,
    TBool,
    TArrow,
    TProd,
    Let,
    /// In the left part of a sum.
    Inl,
    /// In its right part.
    Inr,
    Case,
    TSum,
}
