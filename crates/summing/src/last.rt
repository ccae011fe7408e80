// The last clause of a disequality in A: the outer premises imply not [middle].

ghost use Rattle.std.specs.Prelude.{◌∷◌, [], ◌+◌, ◌^◌, ◌≤◌, ◌<◌, length};
ghost use Rattle.clauses.specs.Records.{conclusion_record};
ghost use Rattle.marking.specs.Drawn.{DrawnSome};
ghost use Rattle.summing.specs.Writing.{sheet_of, Lent, RecordsPut};
ghost use Rattle.summing.specs.Cutting.{InPlace, not_middle_of};
ghost use Rattle.summing.specs.Written.{Blank, LastPut};

use super::premises::outer_premises;
use super::stretches::Cut;
use super::writing::{Kind, Records};
use marking::drawing::Drawing;

// The record of the last clause's conclusion: the ends of the middle stretch differ; or false, where it is empty.
fn put_last(cut: &Cut<'_>, records: &mut Records<'_>)
    requires { (cut.now.lo ≤ cut.now.hi) × (cut.now.hi ≤ 510) × (records.old.count < 2 ^ 60) }
    ensures lent { Lent records.old records.new }
    ensures put { RecordsPut (conclusion_record (not_middle_of cut.now) ∷ []) (sheet_of records.old) (sheet_of records.new) }
{
    if cut.lo < cut.hi {
        let a = cut.path.stops[cut.lo];
        let b = cut.path.stops[cut.hi];
        records.put(Kind::Different, a.min(b), a.max(b));
    } else {
        records.put(Kind::False, 0, 0);
    }
}

// The last clause of a disequality in A: the premises of the outer stretches imply that the middle one's ends differ.
pub fn last_out(
    drawn: &Drawing,
    vertices: u16,
    cut: &Cut<'_>,
    found: &mut [bool],
    records: &mut Records<'_>,
)
    requires drawn_some { DrawnSome drawn.now (length found.old) }
    requires in_place { InPlace (length found.old) cut.now }
    requires room { (vertices ≤ 511) × (records.old.count + 261122 < 2 ^ 60) }
    requires blank { Blank vertices found.old }
    ensures lent { Lent records.old records.new }
    ensures put { LastPut drawn.now vertices cut.now found.old (sheet_of records.old) found.new (sheet_of records.new) }
{
    outer_premises(drawn, vertices, cut, found, records);
    put_last(cut, records);
}
