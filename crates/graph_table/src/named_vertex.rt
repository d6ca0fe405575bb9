use edit_table::LentVertex;

/// A vertex as a table lends it, and its number.
#[derive(Clone, Copy)]
pub(crate) struct NamedVertex<'t> {
    pub(crate) vertex: LentVertex<'t>,
    pub(crate) number: u32,
}
