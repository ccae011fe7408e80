// The graph's edges as the clause layer reads them. "The clause layer walks a lent list of these edge records": one walk
// takes each record apart, into a column for each part, and all else works on plain arrays.

ghost use Rattle.std.specs.Prelude.{false, ◌≡◌, ◌≤◌, ◌<◌, length, set, replicate};
ghost use Rattle.closure.specs.Forests.{Each};
ghost use Rattle.graphs.specs.Layout.{newest_first};
ghost use Rattle.marking.specs.Marks.{is_b};
ghost use Rattle.marking.specs.Drawn.{is_derived, PartsAt};

use closure::{EDGES, Edge, EdgeKind};
use tables::Side;

// What the edges hold, a column for each part, under the edge's number: `columns_of` promises each part, and the layer runs along the colours alone.
#[derive(Clone, Copy)]
pub struct Columns {
    pub lefts: [u16; EDGES],
    pub rights: [u16; EDGES],
    pub inb: [bool; EDGES],
    pub derived: [bool; EDGES],
}

impl Columns {
    // Before the first edge.
    fn none() -> Columns
        ensures { (result.lefts ≡ replicate 510 0) × (result.rights ≡ replicate 510 0) × (result.inb ≡ replicate 510 false) × (result.derived ≡ replicate 510 false) }
    {
        Columns {
            lefts: [0; EDGES],
            rights: [0; EDGES],
            inb: [false; EDGES],
            derived: [false; EDGES],
        }
    }

    // The parts of one edge, put under its number.
    fn put(&mut self, i: usize, e: Edge)
        requires { i < 510 }
        ensures { (self.new.lefts ≡ set self.old.lefts i e.left) × (self.new.rights ≡ set self.old.rights i e.right) × (self.new.inb ≡ set self.old.inb i (is_b e.colour)) × (self.new.derived ≡ set self.old.derived i (is_derived e.kind)) }
    {
        self.lefts[i] = e.left;
        self.rights[i] = e.right;
        self.inb[i] = e.colour == Side::B;
        self.derived[i] = e.kind == EdgeKind::Derived;
    }
}

// The first count records of a lent list, each under its number.
pub fn columns_of(edges: &[Edge], count: usize) -> Columns
    requires { (count ≤ length edges.now) × (count ≤ 510) }
    ensures { Each (PartsAt result.lefts result.rights result.inb result.derived) (newest_first count edges.now) }
{
    let mut c = Columns::none();
    for i in 0..count {
        c.put(i, edges[i]);
    }
    c
}
