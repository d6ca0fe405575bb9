ghost use Rattle.std.specs.Prelude.{◌≡◌, true, [], length, map, IfOk, OnOk, OnErr};
ghost use Rattle.std.specs.List.{AllByRecursion, IsDistinct};
ghost use Rattle.std.specs.List.Sorted.{IsPermutation, IsSorted};
ghost use Rattle.grove_edits.specs.declared.vertex.Vertex.{Vertex};
ghost use Rattle.grove_edits.specs.Graph.{graph, Ascends};
ghost use Rattle.graph_words.specs.Few.{first_two};
ghost use Rattle.graph_words.specs.Live.{parents_of, children_of};
ghost use Rattle.grove_edits.specs.Vertex.{vertex_cmp, stands_in, is_same_vertex};
ghost use Rattle.graph_words.specs.Whole.{AreLive, IsVertexOf};
ghost use Rattle.edit_table.specs.Lent.{lent_vertex};
ghost use Rattle.edit_table.specs.TableVertex.{table_vertex};
ghost use Rattle.graph_table.specs.GraphEdge.{graph_edge};
ghost use Rattle.graph_table.specs.ParentIndices.{AreIndices};
ghost use Rattle.graph_table.specs.Table.{live, vertex_at, edge_at, few_at, IsNumber, IsIndex};

use crate::around::Around;
use crate::following::children_at;
use crate::gathering::{Gathered, gather};
use crate::graph_edge::GraphEdge;
use crate::link::Link;
use crate::ordering::in_vertex_order;
use crate::parents::Parents;
use edit_table::{EditTable, LentVertex, TableVertex};
use grove_names::Name;
use grove_sorts::Position;
use std::alloc::Global;
use std::marker::Model;
use text_parts::NoMemory;

/// A graph by numbers. Contracts see its edits and its vertices, in the order of their numbers.
#[derive(Drop)]
pub struct GraphTable {
    table: EditTable,
    links: Vec<Link>,
    around: Vec<Around>,
}

impl Model for GraphTable {
    ghost use Rattle.graph_table.specs.Table.{Table};

    ghost Value = { Table };

    ghost use Rattle.graph_table.specs.Parts.{IsGraph};

    ghost view = { λ graph. graph.table };

    ghost invariant = { λ graph. IsGraph graph.table graph.links.items graph.around.items };
}

impl GraphTable {
    /// The graph of a table whose edits ascend.
    pub fn of(alloc: Global, table: EditTable) -> Result<GraphTable, NoMemory>
        requires { Ascends table.edits }
        ensures edits { IfOk result (λ numbered. numbered.edits ≡ table.edits) }
        ensures live { IfOk result (λ numbered. AreLive (graph table.edits) (live numbered)) }
    {
        let Gathered { around, links } = gather(alloc, &table)?;
        Ok(GraphTable {
            table,
            links,
            around,
        })
    }

    /// How many vertices the graph has; their numbers are those below, and no vertex has two.
    pub fn number_count(&self) -> usize
        ensures count { result ≡ length self.now.vertices }
        ensures once { IsDistinct is_same_vertex self.now.vertices }
        ensures each { (v : Vertex) → IsVertexOf (graph self.now.edits) v → stands_in v self.now.vertices ≡ true }
        ensures no_other { (v : Vertex) → stands_in v self.now.vertices ≡ true → IsVertexOf (graph self.now.edits) v }
    {
        self.table.vertex_count()
    }

    /// Some numbers, in the order of their vertices.
    pub fn sort_numbers(&self, alloc: Global, numbers: &[u32]) -> Result<Vec<u32>, NoMemory>
        requires { AllByRecursion (IsNumber self.now) numbers.now }
        ensures same { IfOk result (λ list. IsPermutation numbers.now list.items) }
        ensures order { IfOk result (λ list. IsSorted vertex_cmp (map (vertex_at self.now) list.items)) }
        ensures numbers { IfOk result (λ list. AllByRecursion (IsNumber self.now) list.items) }
    {
        in_vertex_order(alloc, &self.table, numbers)
    }

    /// The edge of the edit at an index, lent.
    pub fn edge(&self, index: usize) -> GraphEdge<'_>
        requires { IsIndex self.now index }
        ensures { graph_edge result ≡ edge_at self.now index }
    {
        // The invariant bounds the index.
        let _ = &self.links;
        GraphEdge::at(self, index as u32)
    }

    pub(crate) fn name(&self, index: usize) -> Name
        requires { IsIndex self.now index }
        ensures { result ≡ (edge_at self.now index).name }
    {
        self.links[index].name
    }

    pub(crate) fn position(&self, index: usize) -> Position
        requires { IsIndex self.now index }
        ensures { result ≡ (edge_at self.now index).position }
    {
        self.links[index].position
    }

    pub(crate) fn lent_source(&self, index: usize) -> LentVertex<'_>
        requires { IsIndex self.now index }
        ensures { lent_vertex result ≡ (edge_at self.now index).source }
    {
        self.table.lent(self.table.source(index))
    }

    pub(crate) fn lent_target(&self, index: usize) -> LentVertex<'_>
        requires { IsIndex self.now index }
        ensures { lent_vertex result ≡ (edge_at self.now index).target }
    {
        self.table.lent(self.links[index].target as usize)
    }

    /// The vertex with a number, as the table lends it.
    pub fn vertex(&self, number: usize) -> TableVertex<'_>
        requires { IsNumber self.now number }
        ensures { table_vertex result ≡ vertex_at self.now number }
    {
        self.table.vertex(number)
    }

    /// The number of the vertex from which the edge at an index leads.
    pub fn source(&self, index: usize) -> usize
        requires { IsIndex self.now index }
        ensures number { IsNumber self.now result }
        ensures source { vertex_at self.now result ≡ (edge_at self.now index).source }
    {
        self.table.source(index)
    }

    /// The number of the vertex to which the edge at an index leads.
    pub fn target(&self, index: usize) -> usize
        requires { IsIndex self.now index }
        ensures number { IsNumber self.now result }
        ensures target { vertex_at self.now result ≡ (edge_at self.now index).target }
    {
        self.links[index].target as usize
    }

    /// The live edges to the vertex with a number: the least two in edge order, or fewer where there are fewer.
    pub fn parents(&self, number: usize) -> Parents
        requires { IsNumber self.now number }
        ensures edges { few_at self.now result ≡ first_two (parents_of (vertex_at self.now number) (live self.now)) }
        ensures indices { AreIndices self.now result }
        ensures live { AreLive (graph self.now.edits) (live self.now) }
    {
        self.around[number].parents()
    }

    /// Puts the indices of the live edges from a position into a list, in place of what it had, in edge order. Where memory runs out,
    /// the list is empty.
    pub fn children(
        &self,
        number: usize,
        position: Position,
        out: &mut Vec<usize>,
    ) -> Result<(), NoMemory>
        requires { IsNumber self.now number }
        ensures edges { OnOk result (map (edge_at self.now) out.new.items ≡ children_of (vertex_at self.now number) position (live self.now)) }
        ensures indices { OnOk result (AllByRecursion (IsIndex self.now) out.new.items) }
        ensures nothing { OnErr result (out.new.items ≡ []) }
        ensures live { AreLive (graph self.now.edits) (live self.now) }
    {
        children_at(&self.links, self.around[number].last(), position, out)
    }
}
