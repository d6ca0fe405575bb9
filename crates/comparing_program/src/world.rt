use crate::random::Random;
use grove_edits::{Edge, Edit, NoMemory, Vertex};
use grove_names::Name;
use grove_sorts::{Ctor, Ident, Version, all_plain, position_at, position_count, read_ident};
use std::alloc::Global;

// So many vertices beside the root: few enough that edges meet, in conflicts and cycles.
const VERTICES: u64 = 14;

// So often an edge is sought whose ends fit.
const TRIES: u32 = 200;

/// The vertices that the edges of a round join, and what was inserted so far.
#[derive(Drop)]
pub(crate) struct World {
    vertices: Vec<Vertex>,
    inserted: Vec<Edit>,
}

fn ident(random: &mut Random) -> Option<Ident> {
    let spelled: &[u8] = if random.below(2) == 0 { b"x" } else { b"y" };
    read_ident(Version::Two, spelled).ok()
}

// A constructor that is not the root's.
fn ctor(random: &mut Random) -> Ctor {
    let chosen = match random.below(5) {
        0 => ident(random).map(Ctor::Var),
        1 => ident(random).map(Ctor::PVar),
        _ => all_plain()
            .get(1 + random.below(18) as usize)
            .map(|plain| plain.ctor()),
    };
    chosen.unwrap_or(Ctor::Num(7))
}

fn counted(counter: u64) -> Name {
    Name { author: 1, counter }
}

impl World {
    /// The root and some vertices of random constructors. Now and then two have one name.
    pub(crate) fn new(alloc: Global, random: &mut Random) -> Result<World, NoMemory> {
        let mut vertices = Vec::new(alloc);
        vertices.push(Vertex::ROOT)?;
        for number in 1..VERTICES + 1 {
            let counter = if random.below(10) == 0 { 1 } else { number };
            vertices.push(Vertex {
                name: counted(counter),
                ctor: ctor(random),
            })?;
        }
        Ok(World {
            vertices,
            inserted: Vec::new(alloc),
        })
    }

    /// A random edit: an insertion of an edge of that number, or the deletion of one that was inserted, if not both.
    pub(crate) fn edit(
        &mut self,
        random: &mut Random,
        number: u64,
    ) -> Result<Option<Edit>, NoMemory> {
        if random.below(5) < 2
            && let Some(deletion) = self.deletion(random)
        {
            return Ok(Some(deletion));
        }
        self.insertion(random, number)
    }

    fn deletion(&self, random: &mut Random) -> Option<Edit> {
        let among = self.inserted.len() as u64;
        if among == 0 {
            return None;
        }
        let inserted = self.inserted.get(random.below(among) as usize)?;
        Edit::delete(inserted.edge()).ok()
    }

    fn insertion(&mut self, random: &mut Random, number: u64) -> Result<Option<Edit>, NoMemory> {
        for _ in 0..TRIES {
            if let Some(edit) = self
                .edge(random, number)
                .and_then(|edge| Edit::insert(edge).ok())
            {
                self.inserted.push(edit)?;
                return Ok(Some(edit));
            }
        }
        Ok(None)
    }

    // An edge between two vertices, which need not fit.
    fn edge(&self, random: &mut Random, number: u64) -> Option<Edge> {
        let source = self.vertex(random)?;
        let target = self.vertex(random)?;
        let positions = position_count(&source.ctor) as u64;
        if positions == 0 {
            return None;
        }
        let position = position_at(&source.ctor, random.below(positions) as usize)?;
        Some(Edge {
            name: counted(number),
            source,
            position,
            target,
        })
    }

    fn vertex(&self, random: &mut Random) -> Option<Vertex> {
        let among = self.vertices.len() as u64;
        if among == 0 {
            return None;
        }
        self.vertices.get(random.below(among) as usize).copied()
    }
}
