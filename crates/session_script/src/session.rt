use crate::author_list::AuthorList;
use crate::ident_list::IdentList;
use crate::item_list::ItemList;
use grove_sorts::Version;

/// A session: the version of its text, its replicas, the authors who act on them, and its items in order. Replicas are numbered from 0.
#[derive(Debug, Drop)]
pub struct Session {
    pub version: Version,
    pub replicas: IdentList,
    pub authors: AuthorList,
    pub items: ItemList,
}
