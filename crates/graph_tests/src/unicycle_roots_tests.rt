ghost use Rattle.std.specs.Prelude.{◌≡◌, ◌<◌, ◌++◌, [], ◌∷◌, List};
ghost use Rattle.grove_edits.specs.declared.edge.Edge.{Edge};
ghost use Rattle.graph_words.specs.Few.{first_two};
ghost use Rattle.graph_words.specs.Live.{parents_of};

use graph_words::{Few, ParentOf, Steps};
use grove_edits::{Edge, Vertex, is_same_vertex};
use grove_names::Name;
use grove_sorts::{Ctor, Position};
use std::alloc::Global;
use std::marker::{Brand, Model};
use std::sync::ledger::{Blank, Ledger};
use std::test::Fail;
use unicycle_roots::*;

// Live edges in edge order, and how many vertices they lead to.
#[derive(Drop)]
struct Edges {
    edges: Vec<Edge>,
    targets: u64,
}

impl Model for Edges {
    ghost use Rattle.std.specs.Prelude.{◌≡◌, List, length};
    ghost use Rattle.grove_edits.specs.declared.edge.Edge.{Edge};
    ghost use Rattle.graph_words.specs.Live.{IsInEdgeOrder, targets_of};

    ghost Value = { List Edge };

    ghost view = { λ edges. edges.edges.items };

    ghost invariant = { λ edges. IsInEdgeOrder edges.edges.items × (edges.targets ≡ length (targets_of edges.edges.items)) };
}

impl ParentOf for Edges {
    ghost live = { λ edges. edges };

    fn few<L: Ledger>(&self, vertex: &Vertex, steps: &mut Steps<L>) -> Few {
        let few = parents(&self.edges, vertex);
        steps.tick();
        match few {
            Few::Zero => few,
            Few::One(_) => {
                steps.tick();
                few
            }
            Few::More(_, _) => {
                steps.tick();
                steps.tick();
                few
            }
        }
    }

    fn vertex_count(&self) -> u64 {
        self.targets
    }
}

fn parents(edges: &[Edge], vertex: &Vertex) -> Few
    ensures { result ≡ first_two (parents_of vertex.now edges.now) }
{
    let mut few = Few::Zero;
    for edge in edges {
        few = with_parent(few, edge, vertex);
    }
    few
}

fn with_parent(few: Few, edge: &Edge, vertex: &Vertex) -> Few
    ensures { (before : List Edge) → few ≡ first_two before → result ≡ first_two (before ++ parents_of vertex.now (edge.now ∷ [])) }
{
    if !is_same_vertex(&edge.target, vertex) {
        return few;
    }
    match few {
        Few::Zero => Few::One(*edge),
        Few::One(first) => Few::More(first, *edge),
        Few::More(first, second) => Few::More(first, second),
    }
}

fn vertex(counter: u64, ctor: Ctor) -> Vertex
    ensures { result ≡ record { name = record { author = 1; counter = counter }; ctor = ctor } }
{
    Vertex {
        name: Name { author: 1, counter },
        ctor,
    }
}

fn edge(counter: u64, source: Vertex, position: Position, target: Vertex) -> Edge
    ensures { result ≡ record { name = record { author = 1; counter = counter }; source = source; position = position; target = target } }
{
    Edge {
        name: Name { author: 1, counter },
        source,
        position,
        target,
    }
}

fn sample(alloc: Global) -> Result<Edges, NoMemory> {
    let alone = vertex(1, Ctor::Fst);
    let least = vertex(3, Ctor::Fst);
    let other = vertex(5, Ctor::Snd);
    let below = vertex(9, Ctor::Snd);
    let edges = vec![in alloc;
        edge(2, alone, Position::Operand, alone),
        edge(4, least, Position::Operand, other),
        edge(6, other, Position::Operand, least),
        edge(8, other, Position::Operand, vertex(7, Ctor::Num(7))),
        edge(10, Vertex::ROOT, Position::Main, below),
        edge(12, below, Position::Operand, vertex(11, Ctor::Num(8))),
    ]?;
    Ok(Edges { edges, targets: 6 })
}

#[derive(Drop)]
struct Found {
    roots: Vec<Vertex>,
    least: Class,
    other: Class,
}

fn find<L: Ledger>(alloc: Global, blank: Blank) -> Result<Found, NoMemory>
    requires name { blank.name ≡ L.name }
    requires parts { blank.parts ≡ L.parts }
    requires some { 0 < blank.parts }
{
    let edges = sample(alloc)?;
    let mut steps: Steps<L> = Steps::new(blank);
    let least = vertex(3, Ctor::Fst);
    let other = vertex(5, Ctor::Snd);
    let vertices = [
        Vertex::ROOT,
        vertex(11, Ctor::Num(8)),
        vertex(9, Ctor::Snd),
        vertex(7, Ctor::Num(7)),
        other,
        least,
        vertex(1, Ctor::Fst),
    ];
    Ok(Found {
        roots: cycle_roots(alloc, &vertices, &edges, &mut steps)?,
        least: class_of(&least, &edges, &mut steps),
        other: class_of(&other, &edges, &mut steps),
    })
}

#[test]
fn roots_are_found(rt: HostRuntime) -> Result<(), Fail> {
    let found = find::<Brand>(rt.alloc(), Blank::new(1))?;
    assert!(rt; &found.roots[..] == &[vertex(3, Ctor::Fst), vertex(1, Ctor::Fst)][..]);
    assert!(rt; found.least == Class::Cycle);
    assert!(rt; found.other == Class::Inner);
    Ok(())
}
