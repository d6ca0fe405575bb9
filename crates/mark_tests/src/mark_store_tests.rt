use ctx_table::{CtxId, CtxTable};
use grove_edits::Vertex;
use mark_step::Mark;
use mark_store::{MarkStore, Record};
use std::alloc::Global;
use std::test::Fail;

fn empty_context(alloc: Global) -> Result<CtxId, Fail> {
    Ok(CtxTable::new(alloc)?.empty())
}

#[test]
fn a_record_is_put_and_taken_away(rt: HostRuntime) -> Result<(), Fail> {
    let record = Record {
        ctx: empty_context(rt.alloc())?,
        mode: None,
        typ: None,
        mark: Mark::None,
    };
    let mut store = MarkStore::new(rt.alloc());
    assert!(rt; store.get(&Vertex::ROOT) == None);
    store.reserve_for(&[Vertex::ROOT])?;
    assert!(rt; store.get(&Vertex::ROOT) == None);
    store.set(&Vertex::ROOT, record);
    assert!(rt; store.get(&Vertex::ROOT) == Some(record));
    store.clear(&Vertex::ROOT);
    assert!(rt; store.get(&Vertex::ROOT) == None);
    Ok(())
}
