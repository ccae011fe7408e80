// The parent paths of marked edges, read from the newest edge to the oldest: parent paths have older edges only, so one pass is enough.

ghost use Rattle.std.specs.Prelude.{◌<◌, length};
ghost use Rattle.marking.specs.Drawn.{DrawnSome, EdgeSettled, Settled};

use super::drawing::Drawing;
use super::marks::{Marks, want_along};
use closure::VERTICES;
use graphs::paths::Trail;

// What the parent paths of one edge ask for. The paths are laid in the lent trail, one after the other; what it holds before and after is left open.
fn settle_edge(
    drawn: &Drawing,
    i: usize,
    b: bool,
    whole: bool,
    trail: &mut Trail,
    pairs: &mut [bool],
    marks: &mut Marks,
)
    requires drawn_some { DrawnSome drawn.now (length pairs.old) }
    requires i_lt_count { i < drawn.now.count }
    ensures { EdgeSettled drawn.now i b whole pairs.old marks.old pairs.new marks.new }
{
    for j in 0..drawn.places[i] as usize {
        let u = drawn.parents[8 * i + j];
        let v = drawn.parents[8 * i + 4 + j];
        drawn.forest.lay_path(u, v, trail);
        want_along(&drawn.inb, trail, 0, trail.hops, b, whole, pairs, marks);
    }
}

// From the newest edge to the oldest, where an edge has parent paths and a mark asks for them: what they ask for, until all that is owed is marked. One
// trail serves all edges, so that it is cleared once.
pub fn settle(drawn: &Drawing, b: bool, pairs: &mut [bool], marks: &mut Marks)
    requires { DrawnSome drawn.now (length pairs.old) }
    ensures { Settled drawn.now b pairs.old marks.old pairs.new marks.new }
{
    let trail = &mut Trail {
        stops: [0; VERTICES],
        edges: [0; VERTICES],
        hops: 0,
    };
    for i in (0..drawn.count).rev() {
        let whole = marks.inside[i];
        if drawn.places[i] > 0 && (whole || marks.under[i]) {
            settle_edge(drawn, i, b, whole, trail, pairs, marks);
        }
    }
}
