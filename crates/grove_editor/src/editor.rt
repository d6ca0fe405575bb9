ghost use Rattle.std.specs.Prelude.{◌≡◌, ◌++◌, IfOk, OnOk, OnErr};
ghost use Rattle.grove_edits.specs.Graph.{graph};
ghost use Rattle.graph_words.specs.Names.{IsGreatest, IsNameOf};
ghost use Rattle.mark_incremental.specs.Standing.{StandFor};
ghost use Rattle.grove_editor.specs.State.{at_start};

use crate::deed::Deed;
use crate::news::News;
use crate::reply::Reply;
use mark_incremental::Marks;
use replica_core::Replica;
use seeded_hash::HashSeed;
use std::alloc::Global;
use std::marker::Model;
use text_parts::NoMemory;

/// A live graph with its marks, what its authors did and undid, and what the last call told. Contracts see it as its `State`. Each action
/// is in a block of its own: a cut deletes what has the name when it is asked for. A call that answers an error leaves all as it was,
/// unless its contract says otherwise, and may be made again.
#[derive(Drop)]
pub struct Editor {
    pub(crate) alloc: Global,
    // In the block that opened with no edges.
    pub(crate) replica: Replica,
    // The bytes that were fed and are not taken.
    pub(crate) fed: Vec<u8>,
    // What was done and not undone, the newest last, and what undid other deeds and was not undone in its turn.
    pub(crate) done: Vec<Deed>,
    pub(crate) undone: Vec<Deed>,
    pub(crate) news: News,
}

impl Model for Editor {
    ghost use Rattle.grove_editor.specs.State.{State};

    ghost Value = { State };

    ghost use Rattle.grove_editor.specs.Kept.{state_of, IsKept};

    ghost view = { λ e. state_of e.replica e.fed.items e.done.items e.undone.items e.news };

    ghost invariant = { λ e. IsKept e.replica e.done.items e.undone.items };
}

impl Editor {
    /// The empty graph, and nothing done. What it looks up it finds by hashes under a seed.
    pub fn new(alloc: Global, seed: HashSeed) -> Result<Editor, NoMemory>
        ensures start { IfOk result (λ editor. editor ≡ at_start) }
    {
        let replica = Replica::with_seed(alloc, seed)?;
        Ok(Editor {
            alloc,
            replica,
            fed: Vec::new(alloc),
            done: Vec::new(alloc),
            undone: Vec::new(alloc),
            news: News::told(alloc, Reply::Unasked),
        })
    }

    /// The reply to the last call that takes edits, acts, undoes or redoes.
    pub fn reply(&self) -> &Reply
        ensures { result.now ≡ self.now.reply }
    {
        &self.news.reply
    }

    /// The greatest counter of an author among the names of the graph, and 0 where none is by the author.
    pub fn greatest(&self, author: u32) -> u64
        ensures { IsGreatest (IsNameOf (graph self.now.edits)) author result }
    {
        self.replica.graph().greatest(author)
    }

    /// The marks of the graph.
    pub fn marks(&self) -> &Marks
        ensures { StandFor (graph self.now.edits) result.now }
    {
        self.replica.marks()
    }
}
