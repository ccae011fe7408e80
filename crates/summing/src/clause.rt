// Clauses as records: the premises of each, and then its conclusion, in ascending order.

ghost use Rattle.std.specs.Prelude.{◌∷◌, [], ◌≡◌, ◌+◌, ◌*◌, ◌^◌, ◌≤◌, ◌<◌, length};
ghost use Rattle.tables.specs.Words.{pair, keep, pairs_below};
ghost use Rattle.marking.specs.Marks.{PairMarked, Covered};
ghost use Rattle.summing.specs.Writing.{marked, row_pairs, sheet_of, Lent};
ghost use Rattle.summing.specs.Written.{Blank, ReadableSome, ClausesPut};

use super::premises::outer_premises;
use super::stretches::Cut;
use super::writing::{Kind, Records};
use closure::VERTICES;
use marking::drawing::Drawing;
use marking::marks::ROW;

// The pairs that clauses conclude, marked in a square, and which of its rows have one.
#[derive(Clone, Copy)]
pub struct Conclusions<'a> {
    pub pairs: &'a [bool],
    pub rows: &'a [bool; VERTICES],
}

// One clause: the premises of the path between u and v, all of which stands before its end, and then the pair itself.
fn clause_out(
    drawn: &Drawing,
    vertices: u16,
    u: u16,
    v: u16,
    found: &mut [bool],
    records: &mut Records<'_>,
)
    requires readable_some { ReadableSome drawn.now vertices (λ p. p ≡ pair u v) }
    requires u_lt_v { (u < v) × (v < vertices) × (vertices ≤ 511) × (records.old.count + 261122 < 2 ^ 60) }
    requires blank { Blank vertices found.old }
    ensures lent { Lent records.old records.new }
    ensures put { ClausesPut drawn.now vertices (λ p. p ≡ pair u v) (pair u v ∷ []) 1 found.old (sheet_of records.old) found.new (sheet_of records.new) }
{
    let path = drawn.forest.path(u, v);
    let cut = Cut {
        path: &path,
        lo: path.hops,
        hi: path.hops,
    };
    outer_premises(drawn, vertices, &cut, found, records);
    records.put(Kind::Equal, u, v);
}

// The clauses of the marked pairs of one row, ascending.
fn clauses_row(
    drawn: &Drawing,
    vertices: u16,
    u: u16,
    pairs: &[bool],
    found: &mut [bool],
    records: &mut Records<'_>,
)
    requires readable_some { ReadableSome drawn.now vertices (PairMarked pairs.now) }
    requires u_lt_vertices { (u < vertices) × (vertices ≤ 511) × (511 * vertices ≤ length pairs.now) × (records.old.count + 261122 * 512 < 2 ^ 60) }
    requires blank { Blank vertices found.old }
    ensures lent { Lent records.old records.new }
    ensures put { ClausesPut drawn.now vertices (PairMarked pairs.now) (keep (marked pairs.now) (row_pairs vertices u)) 511 found.old (sheet_of records.old) found.new (sheet_of records.new) }
{
    for v in u + 1..vertices {
        if pairs[ROW * u as usize + v as usize] {
            clause_out(drawn, vertices, u, v, found, records);
        }
    }
}

// The clauses of all marked pairs, ascending. Rows without a mark are passed over. It goes over the square as `premises_out` does, which says why they
// are two.
pub fn clauses_out(
    drawn: &Drawing,
    vertices: u16,
    conclusions: &Conclusions<'_>,
    found: &mut [bool],
    records: &mut Records<'_>,
)
    requires readable_some { ReadableSome drawn.now vertices (PairMarked conclusions.now.pairs.now) }
    requires vertices_bound { (vertices ≤ 511) × (511 * vertices ≤ length conclusions.now.pairs.now) × (records.old.count + 261122 * 262144 < 2 ^ 60) × Covered conclusions.now.pairs.now conclusions.now.rows.now }
    requires blank { Blank vertices found.old }
    ensures lent { Lent records.old records.new }
    ensures put { ClausesPut drawn.now vertices (PairMarked conclusions.now.pairs.now) (keep (marked conclusions.now.pairs.now) (pairs_below vertices)) 261121 found.old (sheet_of records.old) found.new (sheet_of records.new) }
{
    for u in 0..vertices {
        if conclusions.rows[u as usize] {
            clauses_row(drawn, vertices, u, conclusions.pairs, found, records);
        }
    }
}
