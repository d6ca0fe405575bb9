use crate::told::Told;
use grove_names::Name;

/// Something that is told of one name, ordered by what is told and then by the name.
#[derive(Clone, Copy, Debug, PartialEq, Eq, PartialOrd, Ord)]
pub(crate) struct Fact {
    pub(crate) told: Told,
    pub(crate) name: Name,
}
