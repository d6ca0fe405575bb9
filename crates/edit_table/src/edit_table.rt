ghost use Rattle.std.specs.Prelude.{◌≡◌, ◌<◌, ◌^◌, length, IfOk};
ghost use Rattle.grove_edits.specs.Graph.{graph, IsCanonical};
ghost use Rattle.edit_table.specs.Table.{edge_at, kind_at, vertex_at, AreEnds, IsIndex, IsNumber};

use crate::edit_table_builder::EditTableBuilder;
use crate::lending::lent_ctor;
use crate::lent_vertex::LentVertex;
use crate::record::Record;
use crate::table_vertex::TableVertex;
use crate::vertex_key::VertexKey;
use grove_edits::{EditKind, EditList};
use grove_names::Name;
use grove_sorts::{Ctor, Position};
use indexmap::IndexSet;
use seeded_hash::HashSeed;
use std::alloc::Global;
use std::marker::Model;
use text_parts::NoMemory;

/// Edits in order, in a few bytes each, whose vertices are numbered: the root is number 0, and each other vertex has the next number
/// where it is met first. A table is only read. Contracts see the edits and the vertices, in the order of their numbers.
#[derive(Drop)]
pub struct EditTable {
    // The branches first, and then other constructors as they were met.
    pub(crate) ctors: IndexSet<Ctor, HashSeed>,
    pub(crate) keys: Vec<VertexKey>,
    pub(crate) records: Vec<Record>,
}

impl Model for EditTable {
    ghost use Rattle.edit_table.specs.Table.{Table};

    ghost Value = { Table };

    ghost use Rattle.edit_table.specs.Records.{table_of, AreRecords};

    ghost view = { λ table. table_of table.ctors.keys table.keys.items table.records.items };

    ghost invariant = { λ table. AreRecords table.ctors.keys table.keys.items table.records.items };
}

impl EditTable {
    ghost use Rattle.edit_table.specs.Lent.{lent_vertex};
    ghost use Rattle.edit_table.specs.TableVertex.{table_vertex};

    /// The table of the canonical list of the graph of some edits.
    pub fn of_list(alloc: Global, edits: &EditList, seed: HashSeed) -> Result<EditTable, NoMemory>
        ensures { IfOk result (λ table. IsCanonical (graph edits.now) table.edits) }
    {
        let builder = EditTableBuilder::of_list(alloc, edits, seed)?;
        builder.into_table(alloc)
    }

    /// How many edits there are.
    pub fn len(&self) -> usize
        ensures count { result ≡ length self.now.edits }
        ensures few { result < 2 ^ 32 }
    {
        self.records.len()
    }

    /// How many vertices there are: the root, and the ends of the edits. Their numbers are those below, and no vertex has two.
    pub fn vertex_count(&self) -> usize
        ensures count { result ≡ length self.now.vertices }
        ensures vertices { AreEnds self.now.edits self.now.vertices }
    {
        self.keys.len()
    }

    /// The vertex with a number.
    pub fn vertex(&self, number: usize) -> TableVertex<'_>
        requires { IsNumber self.now number }
        ensures { table_vertex result ≡ vertex_at self.now number }
    {
        // The invariant bounds the number.
        let _ = &self.keys;
        TableVertex::at(self, number as u32)
    }

    /// The vertex with a number, its constructor lent.
    pub fn lent(&self, number: usize) -> LentVertex<'_>
        requires { IsNumber self.now number }
        ensures { lent_vertex result ≡ vertex_at self.now number }
    {
        let key = self.keys[number];
        LentVertex {
            name: key.name,
            ctor: lent_ctor(&self.ctors, key.ctor),
        }
    }

    /// The number of the vertex from which the edge at an index leads.
    pub fn source(&self, index: usize) -> usize
        requires { IsIndex self.now index }
        ensures number { IsNumber self.now result }
        ensures source { vertex_at self.now result ≡ (edge_at self.now index).source }
    {
        self.records[index].source as usize
    }

    /// The number of the vertex to which the edge at an index leads.
    pub fn target(&self, index: usize) -> usize
        requires { IsIndex self.now index }
        ensures number { IsNumber self.now result }
        ensures target { vertex_at self.now result ≡ (edge_at self.now index).target }
    {
        self.records[index].target as usize
    }

    /// The name of the edge at an index.
    pub fn name(&self, index: usize) -> Name
        requires { IsIndex self.now index }
        ensures { result ≡ (edge_at self.now index).name }
    {
        self.records[index].name
    }

    /// The position at which the edge at an index stands.
    pub fn position(&self, index: usize) -> Position
        requires { IsIndex self.now index }
        ensures { result ≡ (edge_at self.now index).position }
    {
        self.records[index].position
    }

    /// What the edit at an index does to its edge.
    pub fn kind(&self, index: usize) -> EditKind
        requires { IsIndex self.now index }
        ensures { result ≡ kind_at self.now index }
    {
        self.records[index].kind
    }
}
