// The premises of a clause, marked, and written as records in ascending order.

ghost use Rattle.std.specs.Prelude.{◌+◌, ◌^◌, ◌≤◌, ◌<◌, length};
ghost use Rattle.marking.specs.Drawn.{DrawnSome};
ghost use Rattle.summing.specs.Writing.{sheet_of, Lent};
ghost use Rattle.summing.specs.Cutting.{InPlace};
ghost use Rattle.summing.specs.Written.{Blank, PremisesPut};

use super::stretches::Cut;
use super::writing::{Records, premises_out};
use marking::drawing::Drawing;
use marking::marks::{Marks, want_outer};
use marking::settling::settle;

// The premises of the outer stretches of a path. Their marks are taken away as they are written.
pub fn outer_premises(
    drawn: &Drawing,
    vertices: u16,
    cut: &Cut<'_>,
    found: &mut [bool],
    records: &mut Records<'_>,
)
    requires drawn_some { DrawnSome drawn.now (length found.old) }
    requires in_place { InPlace (length found.old) cut.now }
    requires room { (vertices ≤ 511) × (records.old.count + 261122 < 2 ^ 60) }
    requires blank { Blank vertices found.old }
    ensures lent { Lent records.old records.new }
    ensures put { PremisesPut drawn.now vertices cut.now found.old (sheet_of records.old) found.new (sheet_of records.new) }
{
    let marks = &mut Marks::none();
    want_outer(&drawn.inb, cut.path, cut.lo, cut.hi, true, found, marks);
    settle(drawn, true, found, marks);
    premises_out(found, &marks.rows, vertices, records);
}
