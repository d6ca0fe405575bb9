ghost use Rattle.std.specs.Prelude.{◌≡◌, List, IfSome};
ghost use Rattle.std.specs.declared.cmp.Ordering.TheVariants.{Equal};
ghost use Rattle.grove_names.specs.Name.{name_cmp};
ghost use Rattle.grove_sorts.specs.Ctor.{ctor_cmp};
ghost use Rattle.grove_edits.specs.Vertex.{vertex_cmp};
ghost use Rattle.edit_table.specs.Lent.{lent_ctor};
ghost use Rattle.edit_table.specs.Keys.{ctor_of, vertices_of};
ghost use Rattle.edit_table.specs.Ranks.{IsRankOf};
ghost use Rattle.edit_table.specs.Records.{numbered, record_cmp};

use crate::lent_ctor::{LentCtor, compare_ctors};
use crate::ranked_ctors::RankedCtors;
use crate::record::Record;
use crate::vertex_key::{CtorKey, VertexKey};
use grove_edits::Vertex;
use grove_names::Name;
use grove_sorts::Ctor;
use std::cmp::Ordering;

/// The order of the edits that records stand for. Nearly every edge has a name of its own, so a vertex is looked up only where two
/// records share a name.
#[inline(always)]
pub(crate) fn compare_records(
    ranked: &RankedCtors,
    keys: &[VertexKey],
    a: &Record,
    b: &Record,
) -> Ordering
    ensures { result ≡ record_cmp (vertices_of ranked.now.ctors.now keys.now) a.now b.now }
{
    match a.name.cmp(&b.name) {
        Ordering::Equal => compare_namesakes(ranked, keys, a, b),
        unequal => unequal,
    }
}

// The order of two records that share a name.
fn compare_namesakes(ranked: &RankedCtors, keys: &[VertexKey], a: &Record, b: &Record) -> Ordering
    requires { name_cmp a.now.name b.now.name ≡ Equal }
    ensures { result ≡ record_cmp (vertices_of ranked.now.ctors.now keys.now) a.now b.now }
{
    let sources = compare_numbered(ranked, keys, a.source, b.source);
    let positions = a.position.cmp(&b.position);
    let targets = compare_numbered(ranked, keys, a.target, b.target);
    let kinds = a.kind.cmp(&b.kind);
    sources.then(positions).then(targets).then(kinds)
}

// The order of the vertices with two numbers, of which one that no vertex has counts as the root's. Constructors are read only where
// the vertices share a name.
fn compare_numbered(ranked: &RankedCtors, keys: &[VertexKey], a: u32, b: u32) -> Ordering
    ensures { result ≡ vertex_cmp (numbered (vertices_of ranked.now.ctors.now keys.now) a) (numbered (vertices_of ranked.now.ctors.now keys.now) b) }
{
    if a == b {
        return Ordering::Equal;
    }
    match name_at(keys, a).cmp(&name_at(keys, b)) {
        Ordering::Equal => compare_ctors_numbered(ranked, keys, a, b),
        unequal => unequal,
    }
}

#[inline(always)]
fn name_at(keys: &[VertexKey], number: u32) -> Name
    ensures { (ctors : List Ctor) → result ≡ (numbered (vertices_of ctors keys.now) number).name }
{
    match keys.get(number as usize) {
        Some(key) => key.name,
        None => Vertex::ROOT.name,
    }
}

// The order of the constructors of the vertices with two numbers: that of their ranks, where both have one.
fn compare_ctors_numbered(ranked: &RankedCtors, keys: &[VertexKey], a: u32, b: u32) -> Ordering
    ensures { result ≡ ctor_cmp (numbered (vertices_of ranked.now.ctors.now keys.now) a).ctor (numbered (vertices_of ranked.now.ctors.now keys.now) b).ctor }
{
    match (rank_at(ranked, keys, a), rank_at(ranked, keys, b)) {
        (Some(a), Some(b)) => a.cmp(&b),
        _ => compare_unranked(ranked.ctors, keys, a, b),
    }
}

// The rank of the constructor of the vertex with a number. A literal that is short has none.
fn rank_at(ranked: &RankedCtors, keys: &[VertexKey], number: u32) -> Option<u32>
    ensures { IfSome result (λ rank. IsRankOf ranked.now.ctors.now ranked.now.ranks.now rank (numbered (vertices_of ranked.now.ctors.now keys.now) number).ctor) }
{
    match keys.get(number as usize)?.ctor {
        CtorKey::At(number) => ranked.ranks.get(number as usize).copied(),
        CtorKey::Short(_literal) => None,
    }
}

// The order of the constructors themselves.
fn compare_unranked(ctors: &[Ctor], keys: &[VertexKey], a: u32, b: u32) -> Ordering
    ensures { result ≡ ctor_cmp (numbered (vertices_of ctors.now keys.now) a).ctor (numbered (vertices_of ctors.now keys.now) b).ctor }
{
    let root = Ctor::Root;
    let a = ctor_at(ctors, keys, a, &root);
    let b = ctor_at(ctors, keys, b, &root);
    compare_ctors(&a, &b)
}

fn ctor_at<'t>(ctors: &'t [Ctor], keys: &[VertexKey], number: u32, root: &'t Ctor) -> LentCtor<'t>
    requires { root.now ≡ Ctor.Root }
    ensures { lent_ctor result ≡ (numbered (vertices_of ctors.now keys.now) number).ctor }
{
    match keys.get(number as usize) {
        Some(key) => ctor_of(ctors, key.ctor, root),
        None => LentCtor::At(root),
    }
}

fn ctor_of<'t>(ctors: &'t [Ctor], key: CtorKey, root: &'t Ctor) -> LentCtor<'t>
    requires { root.now ≡ Ctor.Root }
    ensures { lent_ctor result ≡ ctor_of ctors.now key }
{
    match key {
        CtorKey::Short(literal) => LentCtor::Literal(u64::from(literal)),
        CtorKey::At(number) => LentCtor::At(ctors.get(number as usize).unwrap_or(root)),
    }
}
