use grove_names::Name;

/// How many successive counters of an author stand on a page.
pub(crate) const PAGE_SIZE: u64 = 64;

/// A name with numbers, by its place on a page.
#[derive(Clone, Copy)]
pub(crate) struct Entry {
    pub(crate) place: u8,
    // Whether the name has several numbers, which then stand in a list elsewhere.
    pub(crate) several: bool,
    // The only number, or the first one. It stands here, so that most names take no more than eight bytes.
    pub(crate) number: u32,
}

/// Those of some successive counters of an author that have numbers.
#[derive(Drop)]
pub(crate) struct Page {
    // The author, and what each counter on the page gives when it is divided by the size of a page.
    pub(crate) name: Name,
    // In the order in which they came.
    pub(crate) entries: Vec<Entry>,
}
