// Marks along a stretch of a path: which factors' ends are read, and which edges' parent paths.

ghost use Rattle.std.specs.Prelude.{◌≡◌, ◌≤◌, ◌<◌, length};
ghost use Rattle.clauses.specs.Clauses.{between};
ghost use Rattle.marking.specs.Marks.{no_marks, place_of, RowsOf, PairAdded, StretchEnd, Within, FactorsAdded, EdgesAdded, Wanted, OuterWanted};

use closure::{EDGES, VERTICES};
use graphs::paths::Trail;

// Beside a square of marked pairs: its rows that have a pair, so that those without one are passed over later; the edges whose parent paths are read
// whole; and those whose parent paths are read without their own factors.
#[derive(Clone, Copy)]
pub struct Marks {
    pub rows: [bool; VERTICES],
    pub inside: [bool; EDGES],
    pub under: [bool; EDGES],
}

impl Marks {
    // Before the first path is read.
    pub fn none() -> Marks
        ensures { result ≡ no_marks }
    {
        Marks {
            rows: [false; VERTICES],
            inside: [false; EDGES],
            under: [false; EDGES],
        }
    }
}

// How long a row of the square is: a mark for each vertex.
pub const ROW: usize = VERTICES;

// The place of a pair of vertices in the square, in the lower one's row.
fn place(u: u16, v: u16) -> usize
    requires { (u < 511) × (v < 511) }
    ensures { result ≡ place_of (between u v) }
{
    ROW * u.min(v) as usize + u.max(v) as usize
}

// Marks a pair, and its row.
fn mark_pair(u: u16, v: u16, pairs: &mut [bool], rows: &mut [bool; VERTICES])
    requires { (u < 511) × (v < 511) × (place_of (between u v) < length pairs.old) }
    ensures { PairAdded (between u v) pairs.old rows.old pairs.new rows.new }
{
    pairs[place(u, v)] = true;
    rows[u.min(v) as usize] = true;
}

// Where the stretch of one colour ends that begins at place lo of a trail.
fn stretch_end(inb: &[bool; EDGES], trail: &Trail, lo: usize, hi: usize) -> usize
    requires within { Within trail.now lo hi }
    requires lo_lt_hi { lo < hi }
    ensures { StretchEnd inb.now trail.now lo hi result }
{
    let b = inb[trail.edges[lo] as usize];
    for i in lo + 1..hi {
        if inb[trail.edges[i] as usize] != b {
            return i;
        }
    }
    hi
}

// Marks the ends of the factors of a stretch that have the colour b. The place goes on by a whole factor, so no range has it.
fn want_factors(
    inb: &[bool; EDGES],
    trail: &Trail,
    lo: usize,
    hi: usize,
    b: bool,
    pairs: &mut [bool],
    rows: &mut [bool; VERTICES],
)
    requires within { Within trail.now lo hi }
    requires rows_of { RowsOf (length pairs.old) trail.now hi }
    ensures { FactorsAdded inb.now trail.now lo hi b pairs.old rows.old pairs.new rows.new }
{
    let mut at = lo;
    while at < hi {
        let end = stretch_end(inb, trail, at, hi);
        let e = trail.edges[at] as usize;
        if inb[e] == b {
            mark_pair(trail.stops[at], trail.stops[end], pairs, rows);
        }
        at = end;
    }
}

// Marks the edges of a stretch that have the colour b.
fn want_edges(
    inb: &[bool; EDGES],
    trail: &Trail,
    lo: usize,
    hi: usize,
    b: bool,
    marks: &mut [bool; EDGES],
)
    requires { Within trail.now lo hi }
    ensures { EdgesAdded inb.now trail.now lo hi b marks.old marks.new }
{
    for i in lo..hi {
        let e = trail.edges[i] as usize;
        if inb[e] == b {
            marks[e] = true;
        }
    }
}

// What reading a stretch asks for: the ends of its factors of colour b, unless they do not count; the parent paths of its other edges; and, where
// clauses are read, b being A, those of its A-edges too. A colour is a bool here, b for B, as the column of the edges' colours has it.
pub fn want_along(
    inb: &[bool; EDGES],
    trail: &Trail,
    lo: usize,
    hi: usize,
    b: bool,
    whole: bool,
    pairs: &mut [bool],
    marks: &mut Marks,
)
    requires within { Within trail.now lo hi }
    requires rows_of { RowsOf (length pairs.old) trail.now hi }
    ensures { Wanted inb.now trail.now lo hi b whole pairs.old marks.old pairs.new marks.new }
{
    if whole {
        want_factors(inb, trail, lo, hi, b, pairs, &mut marks.rows);
    }
    want_edges(inb, trail, lo, hi, !b, &mut marks.inside);
    if !b {
        want_edges(inb, trail, lo, hi, false, &mut marks.under);
    }
}

// The stretches before and after the middle one of a path, their own factors where those of B are read.
pub fn want_outer(
    inb: &[bool; EDGES],
    trail: &Trail,
    lo: usize,
    hi: usize,
    b: bool,
    pairs: &mut [bool],
    marks: &mut Marks,
)
    requires within { Within trail.now 0 trail.now.hops × (lo ≤ hi) × (hi ≤ trail.now.hops) }
    requires rows_of { RowsOf (length pairs.old) trail.now trail.now.hops }
    ensures { OuterWanted inb.now trail.now lo hi b pairs.old marks.old pairs.new marks.new }
{
    want_along(inb, trail, 0, lo, b, b, pairs, marks);
    want_along(inb, trail, hi, trail.hops, b, b, pairs, marks);
}
