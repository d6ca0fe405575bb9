use grove_edits::{Action, Place};
use grove_names::Name;
use grove_sorts::{Ctor, Position, Version};
use session_script::*;
use std::test::Fail;

const REFUSED: &[u8] =
    b"session\nreplica a\nauthor 3 a\nload a +1.2 0.0 root main 1.1 ap\nload a +1.3 1.1 ap fun 2.1 num:1\nload a +1.4 1.1 ap arg 2.1 num:2\nblock\n3 construct 2.1 left num:5\nend\nshow\n";

#[test]
fn a_session_is_read(rt: HostRuntime) -> Result<(), Fail> {
    let session = read_session(rt.alloc(), REFUSED).ok().ok_or("a session")?;
    assert!(rt; session.version == Version::One);
    assert!(rt; session.replicas.len() == 1);
    assert!(rt;
        session.authors.get(0)
            == Some(&Declared {
                author: 3,
                replica: 0
            })
    );
    assert!(rt; session.items.len() == 5);
    let Some(Item::Block(block)) = session.items.get(3) else {
        return Err(Fail::from("a block"));
    };
    let action = Action::Construct {
        place: Place {
            name: Name {
                author: 2,
                counter: 1,
            },
            position: Position::Left,
        },
        ctor: Ctor::Num(5),
    };
    assert!(rt; block.lines.get(0) == Some(&Line::Author { author: 3, action }));
    let mut out = Vec::new(rt.alloc());
    write_action(3, &action, &mut out)?;
    assert!(rt; out.as_slice() == b"3 construct 2.1 left num:5".as_slice());
    Ok(())
}
