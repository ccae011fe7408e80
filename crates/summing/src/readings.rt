// The two readings of a disequality: which equalities its clauses conclude, and their records.

ghost use Rattle.std.specs.Prelude.{◌≡◌, ◌*◌, ◌≤◌, length};
ghost use Rattle.marking.specs.Marks.{PairMarked, Covered};
ghost use Rattle.marking.specs.Drawn.{DrawnSome};
ghost use Rattle.summing.specs.Writing.{sheet};
ghost use Rattle.summing.specs.Cutting.{InPlace};
ghost use Rattle.summing.specs.Written.{Clear, Blank, ReadableSome, Concluding, ReadingPut};

use super::clause::{Conclusions, clauses_out};
use super::last::last_out;
use super::stretches::Cut;
use super::writing::Records;
use closure::VERTICES;
use marking::drawing::Drawing;
use marking::marks::{Marks, want_along, want_outer};
use marking::settling::settle;
use tables::Side;

// Marks the pairs that the clauses of a disequality conclude: what its middle stretch reaches, and what its outer ones reach without their own factors.
// Returns which rows have such a pair.
pub fn conclude(drawn: &Drawing, cut: &Cut<'_>, pairs: &mut [bool]) -> [bool; VERTICES]
    requires drawn_some { DrawnSome drawn.now (length pairs.old) }
    requires in_place { InPlace (length pairs.old) cut.now }
    requires clear { Clear pairs.old }
    ensures { (length pairs.new ≡ length pairs.old) × Concluding drawn.now cut.now pairs.new result }
{
    let mut marks = Marks::none();
    want_along(
        &drawn.inb, cut.path, cut.lo, cut.hi, false, true, pairs, &mut marks,
    );
    want_outer(
        &drawn.inb, cut.path, cut.lo, cut.hi, false, pairs, &mut marks,
    );
    settle(drawn, false, pairs, &mut marks);
    marks.rows
}

// The records of a disequality: "Disequality in B: the path clauses of the path between its sides." In A: those of the middle stretch and of the outer
// premises, and a last clause.
pub fn records_out(
    drawn: &Drawing,
    vertices: u16,
    side: Side,
    cut: &Cut<'_>,
    conclusions: &Conclusions<'_>,
    found: &mut [bool],
    out: &mut [u8],
) -> usize
    requires readable_some { ReadableSome drawn.now vertices (PairMarked conclusions.now.pairs.now) }
    requires vertices_bound { (vertices ≤ 511) × (511 * vertices ≤ length conclusions.now.pairs.now) × Covered conclusions.now.pairs.now conclusions.now.rows.now }
    requires in_place { InPlace (length found.old) cut.now }
    requires blank { Blank vertices found.old }
    ensures { ReadingPut drawn.now vertices side cut.now conclusions.now.pairs.now found.old (sheet out.old 0) found.new (sheet out.new result) }
{
    let mut records = Records::new(out);
    clauses_out(drawn, vertices, conclusions, found, &mut records);
    match side {
        Side::A => last_out(drawn, vertices, cut, found, &mut records),
        Side::B => {}
    }
    records.count
}
