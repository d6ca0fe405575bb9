ghost use Rattle.std.specs.Prelude.{◌≡◌, ◌<◌};

use edit_text::read_line;
use graph_words::Steps;
use grove_edits::{Action, EditList, Place, Vertex};
use grove_names::Name;
use grove_sorts::{Ctor, Position, Version};
use mark_step::Mark;
use replica_core::*;
use std::alloc::Global;
use std::marker::Brand;
use std::sync::ledger::{Blank, Ledger};
use std::test::Fail;

const SUM: [&str; 3] = [
    "+1.2 0.0 root main 1.1 plus",
    "+1.4 1.1 plus left 1.3 num:1",
    "+1.6 1.1 plus right 1.5 true",
];

// Takes the edits of lines.
fn take<L: Ledger>(
    alloc: Global,
    marked: &mut Replica,
    lines: &[&str],
    steps: &mut Steps<L>,
) -> Result<(), Fail> {
    for line in lines {
        let edit = read_line(Version::Two, line.as_bytes())?;
        marked.apply(&edit, steps)?;
    }
    Ok(())
}

// The mark that is kept of a vertex, and whether its type is that of truth values.
#[derive(Clone, Copy, Debug, PartialEq, Eq)]
struct Told {
    mark: Mark,
    is_boolean: bool,
}

const GOOD_TRUTH: Told = Told {
    mark: Mark::None,
    is_boolean: true,
};

// What is kept of the vertex to which the edge of a line leads.
fn kept(marked: &mut Replica, line: &str) -> Result<Option<Told>, Fail> {
    let edge = read_line(Version::Two, line.as_bytes())?.edge();
    let boolean = marked.marks().types().boolean();
    let record = marked.marks().kept(&edge.target);
    Ok(record.map(|record| Told {
        mark: record.mark,
        is_boolean: record.typ == Some(boolean),
    }))
}

// Takes the edits of lines, and then those of later ones in a block that opens in between.
fn take_counting<L: Ledger>(
    alloc: Global,
    marked: &mut Replica,
    lines: &[&str],
    later: &[&str],
    blank: Blank,
) -> Result<(), Fail>
    requires name { blank.name ≡ L.name }
    requires parts { blank.parts ≡ L.parts }
    requires some { 0 < blank.parts }
{
    let mut steps = Steps::<L>::new(blank);
    take(alloc, marked, lines, &mut steps)?;
    marked.begin_block(alloc)?;
    take(alloc, marked, later, &mut steps)
}

fn take_both(alloc: Global, marked: &mut Replica, lines: &[&str], last: &str) -> Result<(), Fail> {
    take_counting::<Brand>(alloc, marked, lines, &[last], Blank::new(1))
}

fn kept_once_taken(
    alloc: Global,
    marked: &mut Replica,
    lines: &[&str],
    last: &str,
    line: &str,
) -> Result<Option<Told>, Fail> {
    take_both(alloc, marked, lines, last)?;
    kept(marked, line)
}

fn mark_after(alloc: Global, lines: &[&str], last: &str, line: &str) -> Result<Option<Mark>, Fail> {
    let mut marked = Replica::new(alloc)?;
    let told = kept_once_taken(alloc, &mut marked, lines, last, line);
    drop(marked);
    Ok(told?.map(|told| told.mark))
}

#[test]
fn a_mark_goes_as_its_fault_is_mended(rt: HostRuntime) -> Result<(), Fail> {
    let wrong = mark_after(rt.alloc(), &SUM, SUM[0], SUM[2])?;
    let cut = "-1.6 1.1 plus right 1.5 true";
    let mended = mark_after(rt.alloc(), &SUM, cut, SUM[2])?;
    assert!(rt; wrong == Some(Mark::Inconsistent));
    assert!(rt; mended == Some(Mark::None));
    Ok(())
}

#[test]
fn replicas_keep_the_same_marks(rt: HostRuntime) -> Result<(), Fail> {
    let turned = [SUM[2], SUM[0], SUM[2]];
    let sum = mark_after(rt.alloc(), &turned, SUM[1], SUM[0])?;
    let wrong = mark_after(rt.alloc(), &turned, SUM[1], SUM[2])?;
    assert!(rt; sum == Some(Mark::None));
    assert!(rt; wrong == Some(Mark::Inconsistent));
    Ok(())
}

#[test]
fn nothing_is_kept_of_what_is_no_vertex(rt: HostRuntime) -> Result<(), Fail> {
    let none = mark_after(rt.alloc(), &SUM, SUM[1], "+9.8 0.0 root main 9.9 true")?;
    assert!(rt; none == None);
    Ok(())
}

// Takes the edits of lines, and then an action of the first author.
fn act_counting<L: Ledger>(
    alloc: Global,
    marked: &mut Replica,
    lines: &[&str],
    action: &Action,
    blank: Blank,
) -> Result<(), Fail>
    requires name { blank.name ≡ L.name }
    requires parts { blank.parts ≡ L.parts }
    requires some { 0 < blank.parts }
{
    let mut steps = Steps::<L>::new(blank);
    take(alloc, marked, lines, &mut steps)?;
    marked.begin_block(alloc)?;
    let (_edits, _answer) = marked.act(alloc, 1, action, &mut steps)?;
    Ok(())
}

fn act(alloc: Global, marked: &mut Replica, lines: &[&str], action: &Action) -> Result<(), Fail> {
    act_counting::<Brand>(alloc, marked, lines, action, Blank::new(1))
}

fn kept_of_acted(
    alloc: Global,
    marked: &mut Replica,
    lines: &[&str],
    action: &Action,
    line: &str,
) -> Result<Option<Told>, Fail> {
    act(alloc, marked, lines, action)?;
    kept(marked, line)
}

fn kept_once_acted(
    alloc: Global,
    lines: &[&str],
    action: &Action,
    line: &str,
) -> Result<Option<Told>, Fail> {
    let mut marked = Replica::new(alloc)?;
    let told = kept_of_acted(alloc, &mut marked, lines, action, line);
    drop(marked);
    told
}

#[test]
fn what_an_action_leaves_is_marked(rt: HostRuntime) -> Result<(), Fail> {
    let cut = Action::Cut {
        edge: Name {
            author: 1,
            counter: 6,
        },
    };
    let mended = kept_once_acted(rt.alloc(), &SUM, &cut, SUM[2])?;
    assert!(rt; mended == Some(GOOD_TRUTH));
    Ok(())
}

const DEFINITION: [&str; 4] = [
    "+1.2 0.0 root main 1.1 let",
    "+1.4 1.1 let param 1.3 pvar:x",
    "+1.6 1.1 let def 1.5 num:7",
    "+1.8 1.1 let body 1.7 var:x",
];

#[test]
fn a_use_takes_the_type_of_what_comes_in_place(rt: HostRuntime) -> Result<(), Fail> {
    let literal = Action::Become {
        place: Place {
            name: Name {
                author: 1,
                counter: 1,
            },
            position: Position::Def,
        },
        ctor: Ctor::LitTrue,
    };
    let defined = kept_once_acted(rt.alloc(), &DEFINITION, &literal, DEFINITION[3])?;
    assert!(rt; defined == Some(GOOD_TRUTH));
    Ok(())
}

fn list_of(alloc: Global, lines: &[&str]) -> Result<EditList, Fail> {
    let mut edits = EditList::new(alloc);
    for line in lines {
        edits.push(read_line(Version::Two, line.as_bytes())?)?;
    }
    Ok(edits)
}

// The vertices that edits change behind those of lines.
fn changed_counting<L: Ledger>(
    alloc: Global,
    marked: &mut Replica,
    lines: &[&str],
    edits: &EditList,
    blank: Blank,
) -> Result<Vec<Vertex>, Fail>
    requires name { blank.name ≡ L.name }
    requires parts { blank.parts ≡ L.parts }
    requires some { 0 < blank.parts }
{
    let mut steps = Steps::<L>::new(blank);
    take(alloc, marked, lines, &mut steps)?;
    let changed = marked.apply_all_telling(edits, &mut steps)?;
    Ok(changed)
}

fn changed(
    alloc: Global,
    marked: &mut Replica,
    lines: &[&str],
    later: &[&str],
) -> Result<Vec<Vertex>, Fail> {
    let edits = list_of(alloc, later)?;
    changed_counting::<Brand>(alloc, marked, lines, &edits, Blank::new(1))
}

// Whether the vertex to which the edge of a line leads stands there alone.
fn is_alone(vertices: &[Vertex], line: &str) -> Result<bool, Fail> {
    let edge = read_line(Version::Two, line.as_bytes())?.edge();
    Ok(vertices.len() == 1 && vertices[0] == edge.target)
}

// Whether later edits change one vertex alone.
fn change_alone(alloc: Global, lines: &[&str], later: &[&str], line: &str) -> Result<bool, Fail> {
    let mut marked = Replica::new(alloc)?;
    let vertices = changed(alloc, &mut marked, lines, later);
    drop(marked);
    is_alone(&vertices?, line)
}

// The sum stays a number, and its other operand what it was.
#[test]
fn what_is_cut_off_is_judged_otherwise(rt: HostRuntime) -> Result<(), Fail> {
    let cut = ["-1.6 1.1 plus right 1.5 true"];
    assert!(rt; change_alone(rt.alloc(), &SUM, &cut, SUM[2])?);
    Ok(())
}

// While there are two patterns the use is free, and then it is what it was. The vertex of the second pattern has come.
#[test]
fn a_mark_that_came_back_is_no_change(rt: HostRuntime) -> Result<(), Fail> {
    let twice = [
        "+2.2 1.1 let param 2.1 pvar:y",
        "-2.2 1.1 let param 2.1 pvar:y",
    ];
    assert!(rt; change_alone(rt.alloc(), &DEFINITION, &twice, twice[0])?);
    Ok(())
}
