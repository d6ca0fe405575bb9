ghost use Rattle.std.specs.Prelude.{◌≡◌, ◌<◌};

use edit_text::{read_line, write_edits};
use graph_words::Steps;
use grove_edits::{Action, Actor, Answer, Bytes, Command, EditList};
use grove_names::Name;
use grove_sorts::Version;
use replica_core::*;
use shared_replica::Machine;
use std::alloc::Global;
use std::marker::Brand;
use std::sync::ledger::{Blank, Ledger};
use std::test::Fail;

// Takes the edits of lines.
fn take<L: Ledger>(
    alloc: Global,
    replica: &mut Replica,
    lines: &[&str],
    steps: &mut Steps<L>,
) -> Result<(), Fail> {
    for line in lines {
        let edit = read_line(Version::One, line.as_bytes())?;
        replica.apply(&edit, steps)?;
    }
    Ok(())
}

// Appends the edits of a cut of an edge, and answers its answer.
fn append_cut<L: Ledger>(
    alloc: Global,
    replica: &mut Replica,
    author: u32,
    steps: &mut Steps<L>,
    text: &mut Vec<u8>,
) -> Result<Answer, Fail>
    requires { 0 < author }
{
    let edge = Name {
        author: 3,
        counter: 2,
    };
    let (edits, answer) = replica.act(alloc, author, &Action::Cut { edge }, steps)?;
    write_edits(edits.as_slice(), text)?;
    Ok(answer)
}

// Appends the edits of two cuts of an edge, in a block that opened before the later lines came. Tells whether both are done.
fn cut_counting<L: Ledger>(
    alloc: Global,
    replica: &mut Replica,
    opened: &[&str],
    later: &[&str],
    blank: Blank,
    text: &mut Vec<u8>,
) -> Result<bool, Fail>
    requires name { blank.name ≡ L.name }
    requires parts { blank.parts ≡ L.parts }
    requires some { 0 < blank.parts }
{
    let mut steps = Steps::<L>::new(blank);
    take(alloc, replica, opened, &mut steps)?;
    replica.begin_block(alloc)?;
    take(alloc, replica, later, &mut steps)?;
    let first = append_cut(alloc, replica, 1, &mut steps, text)?;
    let again = append_cut(alloc, replica, 2, &mut steps, text)?;
    Ok(first == Answer::Done && again == Answer::Done)
}

fn cut(alloc: Global, opened: &[&str], later: &[&str], text: &mut Vec<u8>) -> Result<bool, Fail> {
    let mut replica = Replica::new(alloc)?;
    let told = cut_counting::<Brand>(alloc, &mut replica, opened, later, Blank::new(1), text);
    drop(replica);
    told
}

const FIRST: &str = "+3.2 0.0 root main 3.1 num:7";

const NO_FIRST: &str = "-3.2 0.0 root main 3.1 num:7";

const SECOND: &str = "+3.2 0.0 root main 4.1 num:8";

const CUT_FIRST: &[u8] = b"-3.2 0.0 root main 3.1 num:7
-3.2 0.0 root main 3.1 num:7
";

const CUT_SECOND: &[u8] = b"-3.2 0.0 root main 4.1 num:8
-3.2 0.0 root main 4.1 num:8
";

const CUT_BOTH: &[u8] = b"-3.2 0.0 root main 3.1 num:7
-3.2 0.0 root main 4.1 num:8
-3.2 0.0 root main 3.1 num:7
-3.2 0.0 root main 4.1 num:8
";

// An edge is open where an edit named it before the block, be it deleted then, in the block or never.
const CUTS: [(&[&str], &[&str], &[u8]); 7] = [
    (&[FIRST], &[NO_FIRST, SECOND], CUT_FIRST),
    (&[NO_FIRST], &[SECOND], CUT_FIRST),
    (&[SECOND], &[FIRST, NO_FIRST], CUT_SECOND),
    (&[FIRST, NO_FIRST, SECOND], &[NO_FIRST], CUT_BOTH),
    (&[], &[FIRST, NO_FIRST, SECOND], CUT_BOTH),
    (&[FIRST, SECOND], &[], CUT_BOTH),
    (&[FIRST], &[SECOND], CUT_FIRST),
];

#[test]
fn a_cut_takes_the_edges_that_the_block_opened_with(rt: HostRuntime) -> Result<(), Fail> {
    let mut text = Vec::new(rt.alloc());
    for (opened, later, wanted) in CUTS {
        text.clear();
        let are_done = cut(rt.alloc(), opened, later, &mut text)?;
        assert!(rt; are_done);
        assert!(rt; text.as_slice() == wanted);
    }
    Ok(())
}

// Opens a block on the replica of lines, and tells whether the list in order stays, and how long it is.
fn opened_counting<L: Ledger>(
    alloc: Global,
    replica: &mut Replica,
    lines: &[&str],
    blank: Blank,
) -> Result<(bool, usize), Fail>
    requires name { blank.name ≡ L.name }
    requires parts { blank.parts ≡ L.parts }
    requires some { 0 < blank.parts }
{
    let mut steps = Steps::<L>::new(blank);
    take(alloc, replica, lines, &mut steps)?;
    let list = replica.in_order(alloc)?;
    replica.begin_block(alloc)?;
    let ordered = replica.in_order(alloc)?;
    Ok((list.as_slice() == ordered.as_slice(), list.len()))
}

fn opened(alloc: Global, lines: &[&str]) -> Result<(bool, usize), Fail> {
    let mut replica = Replica::new(alloc)?;
    let told = opened_counting::<Brand>(alloc, &mut replica, lines, Blank::new(1));
    drop(replica);
    told
}

#[test]
fn a_block_opens_with_the_list_of_the_graph(rt: HostRuntime) -> Result<(), Fail> {
    let lines = [
        "+1.3 1.1 plus left 1.4 num:1",
        "+1.2 0.0 root main 1.1 plus",
    ];
    let (is_ordered, length) = opened(rt.alloc(), &lines)?;
    assert!(rt; is_ordered);
    assert!(rt; length == 2);
    Ok(())
}

fn edits_of(alloc: Global, lines: &[&str]) -> Result<EditList, Fail> {
    let mut edits = EditList::new(alloc);
    for line in lines {
        edits.push(read_line(Version::One, line.as_bytes())?)?;
    }
    Ok(edits)
}

// The answer to edits that a send brings.
fn sent<L: Ledger>(
    alloc: Global,
    replica: &mut Replica,
    lines: &[&str],
    steps: &mut Steps<L>,
) -> Result<Answer, Fail> {
    let edits = edits_of(alloc, lines)?;
    let command = Command::Take {
        piece: 1,
        bytes: Bytes::of(Vec::new(alloc)),
        edits,
    };
    let (_edits, answer) = replica.step(alloc, Actor::Send(1), &command, steps)?;
    Ok(answer)
}

// The answer to further lines that a send brings to the replica of lines. The canonical text then is appended.
fn sent_counting<L: Ledger>(
    alloc: Global,
    replica: &mut Replica,
    lines: &[&str],
    further: &[&str],
    blank: Blank,
    text: &mut Vec<u8>,
) -> Result<Answer, Fail>
    requires name { blank.name ≡ L.name }
    requires parts { blank.parts ≡ L.parts }
    requires some { 0 < blank.parts }
{
    let mut steps = Steps::<L>::new(blank);
    take(alloc, replica, lines, &mut steps)?;
    let answer = sent(alloc, replica, further, &mut steps)?;
    replica.canonical(alloc, text)?;
    Ok(answer)
}

fn text_once_sent(
    alloc: Global,
    lines: &[&str],
    further: &[&str],
    text: &mut Vec<u8>,
) -> Result<Answer, Fail> {
    let mut replica = Replica::new(alloc)?;
    let told = sent_counting::<Brand>(alloc, &mut replica, lines, further, Blank::new(1), text);
    drop(replica);
    told
}

// A sent edit of a deleted edge comes to nothing.
#[test]
fn a_step_takes_edits(rt: HostRuntime) -> Result<(), Fail> {
    let truth = "+2.2 0.0 root main 2.1 true";
    let mut text = Vec::new(rt.alloc());
    let answer = text_once_sent(rt.alloc(), &[NO_FIRST], &[FIRST, truth], &mut text)?;
    assert!(rt; answer == Answer::Taken { edits: 2 });
    assert!(rt;
        text.as_slice() == b"+2.2 0.0 root main 2.1 true\n-3.2 0.0 root main 3.1 num:7\n".as_slice()
    );
    Ok(())
}
