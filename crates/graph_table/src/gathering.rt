ghost use Rattle.std.specs.Prelude.{◌≡◌, ◌<◌, ◌+◌, ◌^◌, ◌++◌, ◌∷◌, [], length, map, replicate, IfOk};
ghost use Rattle.graph_table.specs.Around.{no_ends, neighbours, ends_noted, with_last_at, with_parent_at, link_of};
ghost use Rattle.graph_table.specs.Chain.{AreAround};
ghost use Rattle.graph_table.specs.Parts.{AreLinks};

use crate::around::Around;
use crate::link::Link;
use edit_table::EditTable;
use grove_edits::EditKind;
use grove_names::Name;
use grove_sorts::Position;
use std::alloc::Global;
use text_parts::NoMemory;

/// What is around each vertex by number, and a link for each edit by index.
#[derive(Drop)]
pub(crate) struct Gathered {
    pub(crate) around: Vec<Around>,
    pub(crate) links: Vec<Link>,
}

fn nothing_around(alloc: Global, count: usize) -> Result<Vec<Around>, NoMemory>
    ensures { IfOk result (λ around. around.items ≡ replicate count no_ends) }
{
    let mut around = Vec::with_capacity(alloc, count)?;
    for _ in 0..count {
        around.push(Around::nothing())?;
    }
    Ok(around)
}

fn set_last(around: &mut [Around], number: usize, index: usize)
    requires number { number < length around.old }
    requires index { index + 1 < 2 ^ 32 }
    ensures { around.new ≡ with_last_at number index around.old }
{
    around[number].set_last(index);
}

fn add_parent(around: &mut [Around], number: usize, index: usize)
    requires number { number < length around.old }
    requires index { index + 1 < 2 ^ 32 }
    ensures { around.new ≡ with_parent_at number index around.old }
{
    around[number].add_parent(index)
}

/// Notes an edit of a kind with an index, whose ends have these numbers.
fn note(around: &mut [Around], index: usize, kind: EditKind, source: usize, target: usize)
    requires source { source < length around.old }
    requires target { target < length around.old }
    requires index { index + 1 < 2 ^ 32 }
    ensures { around.new ≡ ends_noted index kind source target around.old }
{
    if kind == EditKind::Insert {
        set_last(around, source, index);
        add_parent(around, target, index);
    }
}

fn link(
    around: &[Around],
    name: Name,
    position: Position,
    source: usize,
    target: usize,
) -> Result<Link, NoMemory>
    requires { source < length around.now }
    ensures { IfOk result (λ link. link ≡ link_of name position source target around.now) }
{
    let Ok(target) = u32::try_from(target) else {
        return Err(NoMemory);
    };
    Ok(Link {
        name,
        position,
        target,
        before: around[source].last(),
    })
}

pub(crate) fn gather(alloc: Global, table: &EditTable) -> Result<Gathered, NoMemory>
    ensures links { IfOk result (λ gathered. AreLinks table.now gathered.links.items) }
    ensures around { IfOk result (λ gathered. AreAround gathered.links.items gathered.around.items (map (neighbours table.now.edits) table.now.vertices)) }
{
    let mut around = nothing_around(alloc, table.vertex_count())?;
    let mut links = Vec::with_capacity(alloc, table.len())?;
    for index in 0..table.len() {
        let source = table.source(index);
        let target = table.target(index);
        let next = link(
            &around,
            table.name(index),
            table.position(index),
            source,
            target,
        )?;
        links.push(next)?;
        note(&mut around, index, table.kind(index), source, target);
    }
    Ok(Gathered { around, links })
}
