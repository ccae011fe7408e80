// The path between two joined terms, off the rooted forest.

ghost use Rattle.std.specs.Prelude.{◌<◌};
ghost use Rattle.closure.specs.Graph.{Graph};
ghost use Rattle.graphs.specs.Trails.{Joining, TrailOf};

use super::rooting::Rooting;
use closure::VERTICES;

// The vertices that the path stands on, and the edges between them. Memory is fixed, so the arrays have a count beside them; they are filled from both
// ends, which no vector is.
#[derive(Clone, Copy)]
pub struct Trail {
    pub stops: [u16; VERTICES],
    pub edges: [u16; VERTICES],
    pub hops: usize,
}

impl Rooting {
    // From u and from v toward the root, whichever is farther, until they meet. What u's side left fills the arrays from the front, what v's side left
    // fills them from the back, which is closed up in the end: so a path costs its hops alone, and the trail may hold anything before.
    pub fn lay_path(&self, u: u16, v: u16, trail: &mut Trail)
        requires { (u < 511) × (v < 511) × ((G : Graph) × Joining self.now u v G) }
        ensures { (G : Graph) → Joining self.now u v G → TrailOf G u v trail.new }
    {
        let mut a = u;
        let mut b = v;
        let mut up = 0;
        let mut top = VERTICES;
        // Either side may go on, so no range counts the turns.
        while a != b {
            if self.rank[b as usize] <= self.rank[a as usize] {
                trail.stops[up] = a;
                trail.edges[up] = self.by[a as usize];
                a = self.toward[a as usize];
                up += 1;
            } else {
                top -= 1;
                trail.stops[top] = b;
                trail.edges[top] = self.by[b as usize];
                b = self.toward[b as usize];
            }
        }
        trail.stops[up] = a;
        trail.stops.copy_within(top.., up + 1);
        trail.edges.copy_within(top.., up);
        trail.hops = up + (VERTICES - top);
    }

    // The same, handed out as a value.
    pub fn path(&self, u: u16, v: u16) -> Trail
        requires { (u < 511) × (v < 511) × ((G : Graph) × Joining self.now u v G) }
        ensures { (G : Graph) → Joining self.now u v G → TrailOf G u v result }
    {
        let mut trail = Trail {
            stops: [0; VERTICES],
            edges: [0; VERTICES],
            hops: 0,
        };
        self.lay_path(u, v, &mut trail);
        trail
    }
}
