ghost use Rattle.grove_edits.specs.Graph.{graph, IsCanonical};
ghost use Rattle.edit_table.specs.Keys.{vertices_of};
ghost use Rattle.edit_table.specs.Ranks.{AreRanks};
ghost use Rattle.edit_table.specs.Records.{edits_of, AreRecords};

use crate::comparing::compare_records;
use crate::keeping::keep_last_of_each_edge;
use crate::ranked_ctors::RankedCtors;
use crate::record::Record;
use crate::vertex_key::VertexKey;
use grove_sorts::Ctor;

/// Makes records those of the canonical list of the graph of their edits. It takes no memory.
pub(crate) fn make_canonical(
    ctors: &[Ctor],
    ranks: &[u32],
    keys: &[VertexKey],
    records: &mut Vec<Record>,
)
    requires ranks { AreRanks ctors.now ranks.now }
    requires records { AreRecords ctors.now keys.now records.old.items }
    ensures records { AreRecords ctors.now keys.now records.new.items }
    ensures canonical { IsCanonical (graph (edits_of (vertices_of ctors.now keys.now) records.old.items)) (edits_of (vertices_of ctors.now keys.now) records.new.items) }
{
    let ranked = RankedCtors { ctors, ranks };
    records.sort_unstable_by(|a, b| compare_records(&ranked, keys, a, b));
    keep_last_of_each_edge(records);
}
