use edit_text::write_line;
use session_gen::*;
use session_script::Item;
use std::test::Fail;

#[test]
fn twelve_loads_are_spread(rt: HostRuntime) -> Result<(), Fail> {
    let session = generate(rt.alloc(), 12)?;
    assert!(rt; session.replicas.len() == 3);
    assert!(rt; session.items.len() == 15);
    for (index, at, line) in [
        (0, 0, b"+1.11 1.1 plus left 1.2 ap\n".as_slice()),
        (3, 1, b"+1.14 1.4 lam param 1.5 pvar:x\n".as_slice()),
        (8, 2, b"-1.15 1.4 lam type 1.6 tnum\n".as_slice()),
        (11, 1, b"+2.32 2.21 plus right 2.23 num:1\n".as_slice()),
    ] {
        let Some(Item::Load { replica, edit }) = session.items.get(index) else {
            return Err(Fail::from("a load"));
        };
        assert!(rt; *replica == at);
        let mut out = Vec::new(rt.alloc());
        write_line(edit, &mut out)?;
        assert!(rt; out.as_slice() == line);
    }
    Ok(())
}
