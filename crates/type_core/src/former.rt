/// The forms of types with two parts.
#[derive(Clone, Copy, Debug, PartialEq, Eq, Hash)]
pub enum Former {
    /// Functions from the first part to the second.
    Arrow,
    /// Pairs of the first part and the second.
    Product,
    /// A value of the first part or one of the second, marked as which.
    Sum,
}
