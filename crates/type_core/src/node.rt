use crate::former::Former;
use crate::type_id::TypeId;

// A type by the numbers of its parts.
#[derive(Clone, Copy, Debug, PartialEq, Eq, Hash)]
pub(crate) enum Node {
    Unknown,
    Num,
    Boolean,
    Pair(Former, TypeId, TypeId),
}
