use crate::action::Action;
use crate::bytes::Bytes;
use crate::edit_list::EditList;

/// What one step of a replica is asked to do.
#[derive(Debug, Drop)]
pub enum Command {
    Act(Action),
    /// Takes the edits of a piece of a send, with the number of the piece and its bytes. The bytes are empty where no send
    /// brought the edits.
    Take {
        piece: u64,
        bytes: Bytes,
        edits: EditList,
    },
}
