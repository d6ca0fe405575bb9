ghost use Rattle.std.specs.Prelude.{◌≡◌, map, OnOk};
ghost use Rattle.std.specs.List.{AllByRecursion};
ghost use Rattle.graph_words.specs.declared.class.Class.TheVariants.{Inner};
ghost use Rattle.graph_words.specs.Live.{children_of};
ghost use Rattle.graph_words.specs.Class.{class};
ghost use Rattle.grove_terms.specs.Lent.{edge_of};
ghost use Rattle.grove_decompose.specs.Tasks.{is_shared};

use grove_sorts::Position;
use grove_terms::LentEdge;
use text_parts::NoMemory;

/// A graph as the listing of its trees asks for it. It lends its edges.
pub trait TreeSource<'g> {
    ghost use Rattle.std.specs.Prelude.{List};
    ghost use Rattle.grove_edits.specs.declared.vertex.Vertex.{Vertex};
    ghost use Rattle.grove_edits.specs.declared.edge.Edge.{Edge};

    /// How a vertex is found.
    type Spot: Copy;

    /// How a live edge is found.
    type Link: Copy;

    /// What keeps the vertices that were listed under another one.
    type Notes;

    /// What counts the look-ups.
    type Counter;

    /// The live edges, in edge order.
    ghost live: { Self → List Edge };

    ghost vertex_at: { Self → Self.Spot → Vertex };

    ghost edge_at: { Self → Self.Link → Edge };

    /// The spot is that of a vertex of the graph.
    ghost IsSpot: { Self → Self.Spot → Type 0 };

    ghost IsLink: { Self → Self.Link → Type 0 };

    /// Only inner vertices were noted.
    ghost AreInner: { Self → Self.Notes → Type 0 };

    fn edge(&self, link: &Self::Link) -> LentEdge<'g>
        requires { IsLink self.now link.now }
        ensures { edge_of result ≡ edge_at self.now link.now };

    /// The vertex to which an edge leads.
    fn target(&self, link: &Self::Link) -> Self::Spot
        requires { IsLink self.now link.now }
        ensures spot { IsSpot self.now result }
        ensures target { vertex_at self.now result ≡ (edge_at self.now link.now).target };

    /// Whether two or more live edges lead to a vertex.
    fn is_shared(&self, spot: &Self::Spot, counter: &mut Self::Counter) -> bool
        requires { IsSpot self.now spot.now }
        ensures { result ≡ is_shared (vertex_at self.now spot.now) (live self.now) };

    /// Puts the live edges from a position into a list, in place of what it had, in edge order.
    fn children(
        &self,
        spot: &Self::Spot,
        position: Position,
        out: &mut Vec<Self::Link>,
        counter: &mut Self::Counter,
    ) -> Result<(), NoMemory>
        requires { IsSpot self.now spot.now }
        ensures edges { OnOk result (map (edge_at self.now) out.new.items ≡ children_of (vertex_at self.now spot.now) position (live self.now)) }
        ensures links { OnOk result (AllByRecursion (IsLink self.now) out.new.items) };

    /// Notes a vertex that was listed under another one.
    fn note(&self, spot: &Self::Spot, notes: &mut Self::Notes)
        requires noted { AreInner self.now notes.old }
        requires inner { class (live self.now) (vertex_at self.now spot.now) ≡ Inner }
        ensures { AreInner self.now notes.new };
}
