// The forest rooted: each vertex but the roots has the edge toward its root. The root of a class is the term that its label names.

ghost use Rattle.std.specs.Prelude.{true, false, ◌≡◌, ◌≤◌, ◌<◌, get_or};
ghost use Rattle.closure.specs.Graph.{Graph as Edges};
ghost use Rattle.closure.specs.Forests.{EndsBelow};
ghost use Rattle.graphs.specs.Layout.{edges_of, labels_of};
ghost use Rattle.graphs.specs.Rooting.{RootedBy, positives, grown, Growing, Closed};

use super::graph::Graph;
use closure::VERTICES;

// rank is 0 where a vertex is not reached yet, 1 at a root, and one more than the neighbour's toward the root.
// Three arrays and not one of three parts: `RootedBy` says of each what it holds, and a step up reads one part alone.
#[derive(Clone, Copy)]
pub struct Rooting {
    pub toward: [u16; VERTICES],
    pub by: [u16; VERTICES],
    pub rank: [u16; VERTICES],
}

// The roots alone: the terms that are their own labels.
fn roots(labels: &[u16; VERTICES]) -> Rooting
    ensures { (G : Edges) → labels.now ≡ labels_of G → Growing G result }
{
    let mut rank = [0; VERTICES];
    for v in 0..511u16 {
        if labels[v as usize] == v {
            rank[v as usize] = 1;
        }
    }
    Rooting {
        toward: [0; VERTICES],
        by: [0; VERTICES],
        rank,
    }
}

impl Rooting {
    // The vertex v is reached by an edge from a neighbour.
    fn reach(&mut self, v: u16, from: u16, edge: u16)
        requires { (v < 511) × (from < 511) × (get_or self.old.rank from 0 ≤ 511) }
        ensures { self.new ≡ grown self.old v from edge }
    {
        self.toward[v as usize] = from;
        self.by[v as usize] = edge;
        self.rank[v as usize] = self.rank[from as usize] + 1;
    }

    // One pass over the edges: where one end is reached and the other is not, the other is reached by this edge. Says whether there was such an edge.
    fn pass(&mut self, graph: &Graph) -> bool
        requires { (graph.now.count ≤ 510) × EndsBelow 511 (edges_of graph.now) × Growing (edges_of graph.now) self.old }
        ensures { Growing (edges_of graph.now) self.new × (result ≡ true → positives self.old.rank < positives self.new.rank) × (result ≡ false → Closed (edges_of graph.now) self.new.rank) }
    {
        let mut more = false;
        for i in 0..graph.count {
            let left = graph.edges[i].left;
            let right = graph.edges[i].right;
            let l = self.rank[left as usize];
            let k = self.rank[right as usize];
            if l == 0 {
                if k != 0 {
                    self.reach(left, right, i as u16);
                    more = true;
                }
            } else if k == 0 {
                self.reach(right, left, i as u16);
                more = true;
            }
        }
        more
    }
}

// Passes until one reaches nothing more.
pub fn rooted(graph: &Graph, labels: &[u16; VERTICES]) -> Rooting
    requires { (graph.now.count ≤ 510) × EndsBelow 511 (edges_of graph.now) × (labels.now ≡ labels_of (edges_of graph.now)) }
    ensures { RootedBy (edges_of graph.now) result }
{
    let mut forest = roots(labels);
    while forest.pass(graph) {}
    forest
}
