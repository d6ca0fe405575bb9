/// What a vertex stands for: the program's root, an expression, a pattern or a type.
#[derive(Clone, Copy, Debug, PartialEq, Eq, PartialOrd, Ord, Hash)]
pub enum Sort {
    Top,
    Exp,
    Pat,
    Typ,
}
