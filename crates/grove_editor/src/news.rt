ghost use Rattle.std.specs.Prelude.{◌≡◌, []};
ghost use Rattle.grove_editor.specs.News.{IsNewsOf};

use crate::reply::Reply;
use crate::turn::Turn;
use crate::turning::Turned;
use grove_edits::{EditList, Vertex};
use std::alloc::Global;

/// What the last call that takes edits, acts, undoes or redoes told.
#[derive(Drop)]
pub(crate) struct News {
    pub(crate) reply: Reply,
    /// The edits that it made itself.
    pub(crate) made: EditList,
    /// The vertices that marking judges otherwise since, in vertex order.
    pub(crate) changed: Vec<Vertex>,
}

impl News {
    /// A reply of a call that made no edits and changed no mark.
    pub(crate) fn told(alloc: Global, reply: Reply) -> News
        ensures reply { result.reply ≡ reply }
        ensures none { result.made ≡ [] }
        ensures same { result.changed.items ≡ [] }
    {
        News {
            reply,
            made: EditList::new(alloc),
            changed: Vec::new(alloc),
        }
    }

    /// What undoing or redoing came to.
    pub(crate) fn of(alloc: Global, turn: Turn, turned: Turned) -> News
        ensures { IsNewsOf turn turned result }
    {
        match turned {
            Turned::Nothing => News::told(alloc, Reply::NothingToTurn),
            Turned::Refused(fault) => News::told(alloc, Reply::NotTurned(fault)),
            Turned::Made { edits, changed } => {
                let reply = turn.reply(edits.len() as u64);
                News {
                    reply,
                    made: edits,
                    changed,
                }
            }
        }
    }
}
