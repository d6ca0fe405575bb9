use edit_stream::*;
use edit_text::LineFault;
use grove_edits::EditList;
use grove_sorts::Version;
use std::test::Fail;

#[test]
fn a_byte_at_a_time(rt: HostRuntime) -> Result<(), Fail> {
    let text =
        b"-1.2 0.0 root main 1.1 num:7\n+1.2 0.0 root main 1.1 num:7\n+1.2 0.0 root main 1.1 num:7\n+1.2 0.0 root main 1.1 num:7\n".as_slice();
    let mut stream = EditStream::new(rt.alloc(), Version::One);
    let mut edits = EditList::new(rt.alloc());
    for byte in text {
        assert!(rt; stream.feed(&[*byte], &mut edits).is_ok());
    }
    assert!(rt; edits.len() == 4);
    assert!(rt; stream.finish().is_ok());
    let mut whole = EditList::new(rt.alloc());
    assert!(rt;
        EditStream::new(rt.alloc(), Version::One)
            .feed(text, &mut whole)
            .is_ok()
    );
    assert!(rt; edits.as_slice() == whole.as_slice());
    Ok(())
}

#[test]
fn a_bad_second_line_is_answered_again(rt: HostRuntime) {
    let mut stream = EditStream::new(rt.alloc(), Version::One);
    let mut edits = EditList::new(rt.alloc());
    assert!(rt;
        stream
            .feed(
                b"+1.2 0.0 root main 1.1 num:7\n+1.3 0.0 root le",
                &mut edits
            )
            .is_ok()
    );
    for piece in [
        b"ft 1.1 num:7\n+1.2 0.0 root main 1.1 num:7\n".as_slice(),
        b"+1.2 0.0 root main 1.1 num:7\n".as_slice(),
    ] {
        assert!(rt;
            stream.feed(piece, &mut edits)
                == Err(FeedFault::Malformed {
                    line: 2,
                    fault: LineFault::NoPosition,
                })
        );
        assert!(rt; edits.len() == 1);
    }
    assert!(rt;
        stream.finish()
            == Err(FinishFault::Malformed {
                line: 2,
                fault: LineFault::NoPosition,
            })
    );
}

#[test]
fn a_rest_is_told(rt: HostRuntime) {
    let mut stream = EditStream::new(rt.alloc(), Version::One);
    let mut edits = EditList::new(rt.alloc());
    assert!(rt;
        stream
            .feed(b"+1.2 0.0 root main 1.1 num:7\n+", &mut edits)
            .is_ok()
    );
    assert!(rt; stream.feed(b"", &mut edits).is_ok());
    assert!(rt; stream.finish() == Err(FinishFault::Rest { line: 2 }));
}
