ghost use Rattle.std.specs.Prelude.{◌≡◌, IfOk};
ghost use Rattle.graph_table.specs.Table.{live, vertex_at};
ghost use Rattle.grove_terms.specs.Grove.{IsTreeOf};
ghost use Rattle.grove_decompose.specs.Trees.{OnlyInner};
ghost use Rattle.marking.specs.Grove.{IsMarkedTree};
ghost use Rattle.grove_terms.specs.Sorted.{IsSortedTree};
ghost use Rattle.marking.specs.Reading.{meant_nodes};
ghost use Rattle.marking.specs.Numbers.{AreMarkedNodesOf};
ghost use Rattle.grove_answers.specs.Program.{IsHead};

use ctx_table::CtxTable;
use graph_table::GraphTable;
use grove_decompose::{Seen, tree_by_number};
use grove_terms::Tree;
use mark_rules::{OpenFrames, mark_tree};
use marking::MarkedTree;
use seeded_hash::HashSeed;
use std::alloc::Global;
use text_parts::NoMemory;
use type_core::TypeTable;

/// What is kept from one tree of a program to the next.
#[derive(Drop)]
pub(crate) struct Walk<'g> {
    pub(crate) seen: Seen,
    pub(crate) types: TypeTable,
    pub(crate) contexts: CtxTable,
    pub(crate) room: OpenFrames<'g>,
}

impl<'g> Walk<'g> {
    /// Before the first tree. Types and contexts are found by their hashes under a seed.
    pub(crate) fn new(
        alloc: Global,
        table: &GraphTable,
        seed: HashSeed,
    ) -> Result<Walk<'g>, NoMemory>
        ensures { IfOk result (λ walk. OnlyInner table.now walk.seen) }
    {
        Walk::after(alloc, Seen::none_of(alloc, table)?, seed)
    }

    /// Before a further tree, where some were seen, and without the types and contexts of those.
    pub(crate) fn after(alloc: Global, seen: Seen, seed: HashSeed) -> Result<Walk<'g>, NoMemory>
        ensures { IfOk result (λ walk. walk.seen ≡ seen) }
    {
        Ok(Walk {
            seen,
            types: TypeTable::with_seed(alloc, seed)?,
            contexts: CtxTable::with_seed(alloc, seed)?,
            room: OpenFrames::new(alloc),
        })
    }

    /// What was seen.
    pub(crate) fn into_seen(self) -> Seen
        ensures { result ≡ self.entry.seen }
    {
        self.seen
    }

    /// The tree of a vertex that heads one.
    pub(crate) fn tree(
        &mut self,
        alloc: Global,
        table: &'g GraphTable,
        head: u32,
    ) -> Result<Tree<'g>, NoMemory>
        requires head { IsHead table.now head }
        requires seen { OnlyInner table.now self.old.seen }
        ensures tree { IfOk result (λ tree. IsTreeOf (live table.now) (vertex_at table.now head) tree) }
        ensures sorted { IfOk result IsSortedTree }
        ensures seen { OnlyInner table.now self.new.seen }
    {
        Ok(tree_by_number(alloc, table, head, &mut self.seen)?)
    }

    /// The marking of a tree.
    pub(crate) fn marking<'n>(
        &mut self,
        alloc: Global,
        tree: &'n Tree<'g>,
    ) -> Result<MarkedTree<'n, 'g>, NoMemory>
        requires { IsSortedTree tree.now }
        ensures marked { IfOk result (λ marked. IsMarkedTree tree.now (meant_nodes self.new.types marked)) }
        ensures numbers { IfOk result (AreMarkedNodesOf self.new.types) }
        ensures seen { self.new.seen ≡ self.old.seen }
    {
        Ok(mark_tree(
            alloc,
            tree,
            &mut self.types,
            &mut self.contexts,
            &mut self.room,
        )?)
    }
}
