// The graph: its edges in the order of adding.

ghost use Rattle.std.specs.Prelude.{◌≡◌, [], ◌∷◌, ◌+◌, ◌<◌, set, replicate};
ghost use Rattle.graphs.specs.Layout.{no_edge, edges_of};

use closure::{EDGES, Edge, EdgeKind};
use tables::Side;

// An array of one size with a count beside it, and no vector: memory is fixed, the graph goes by value as document 01 names the form, and `with_edge`
// promises the array too.
#[derive(Clone, Copy)]
pub struct Graph {
    pub edges: [Edge; EDGES],
    pub count: usize,
}

impl Graph {
    // "The graph starts with the terms in use and no edge."
    pub fn empty() -> Graph
        ensures { (edges_of result ≡ []) × (result.count ≡ 0) × (result.edges ≡ replicate 510 no_edge) }
    {
        let none = Edge {
            left: 0,
            right: 0,
            colour: Side::A,
            kind: EdgeKind::Basic,
        };
        Graph {
            edges: [none; EDGES],
            count: 0,
        }
    }

    // "gets a derived edge to it": the graph, taken by value and handed back with one edge more.
    pub fn with_edge(mut self, e: Edge) -> Graph
        requires { self.count < 510 }
        ensures { (edges_of result ≡ e ∷ edges_of self) × (result.count ≡ self.count + 1) × (result.edges ≡ set self.edges self.count e) }
    {
        let at = self.count;
        self.edges[at] = e;
        self.count = at + 1;
        self
    }
}
