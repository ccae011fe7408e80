// Clause records: written where they fit, counted in any case.

ghost use Rattle.std.specs.Prelude.{◌∷◌, [], ◌≡◌, ◌+◌, ◌*◌, ◌^◌, ◌≤◌, ◌<◌, length};
ghost use Rattle.tables.specs.Words.{pair};
ghost use Rattle.clauses.specs.Records.{clause_record};
ghost use Rattle.marking.specs.Marks.{Covered};
ghost use Rattle.summing.specs.Writing.{kind_number, sheet, sheet_of, Lent, RecordsPut, RowOut, AllOut};

use closure::VERTICES;
use marking::marks::ROW;

// "0 kind (1 premise, 2 equal, 3 different, 4 false)".
#[derive(Clone, Copy, Debug, PartialEq, Eq)]
pub enum Kind {
    Premise = 1,
    Equal = 2,
    Different = 3,
    False = 4,
}

// How many bytes a record has.
pub const RECORD: usize = 8;

// A lent buffer, and how many records were put into it: each is written where it fits, so that a run over an empty buffer counts them.
#[derive(Drop)]
pub struct Records<'a> {
    out: &'a mut [u8],
    pub count: usize,
}

impl<'a> Records<'a> {
    // Before the first record.
    pub fn new(out: &'a mut [u8]) -> Records<'a>
        ensures same_reference { result.out.ghost_name ≡ out.entry.ghost_name }
        ensures start { sheet_of result ≡ sheet out.old 0 }
    {
        Records { out, count: 0 }
    }

    // One record more.
    pub fn put(&mut self, kind: Kind, left: u16, right: u16)
        requires { self.old.count < 2 ^ 60 }
        ensures lent { Lent self.old self.new }
        ensures put { RecordsPut (clause_record (kind_number kind) (pair left right) ∷ []) (sheet_of self.old) (sheet_of self.new) }
    {
        let start = RECORD * self.count;
        if start + RECORD <= self.out.len() {
            let l = left.to_le_bytes();
            let r = right.to_le_bytes();
            self.out[start..start + RECORD].copy_from_slice(&[
                kind as u8, 0, l[0], l[1], r[0], r[1], 0, 0,
            ]);
        }
        self.count += 1;
    }
}

// The marked premises of one row of the square, as records; their marks are taken away.
fn row_out(found: &mut [bool], u: u16, vertices: u16, records: &mut Records<'_>)
    requires u_lt_vertices { (u < vertices) × (vertices ≤ 511) × (records.old.count + 511 < 2 ^ 60) }
    requires vertices_in_bounds { 511 * vertices ≤ length found.old }
    ensures lent { Lent records.old records.new }
    ensures put { RowOut vertices u found.old (sheet_of records.old) found.new (sheet_of records.new) }
{
    for v in u + 1..vertices {
        let k = ROW * u as usize + v as usize;
        if found[k] {
            found[k] = false;
            records.put(Kind::Premise, u, v);
        }
    }
}

// All marked premises, as records in ascending order; their marks are taken away. Rows without a mark are passed over. `clauses_out` goes over a square
// in the same way and takes no mark away: one function for both would take a closure that changes what it captures, of which nothing is known after.
pub fn premises_out(
    found: &mut [bool],
    rows: &[bool; VERTICES],
    vertices: u16,
    records: &mut Records<'_>,
)
    requires vertices_bound { (vertices ≤ 511) × (records.old.count + 261121 < 2 ^ 60) }
    requires vertices_in_bounds { (511 * vertices ≤ length found.old) × Covered found.old rows.now }
    ensures lent { Lent records.old records.new }
    ensures put { AllOut vertices found.old (sheet_of records.old) found.new (sheet_of records.new) }
{
    for u in 0..vertices {
        if rows[u as usize] {
            row_out(found, u, vertices, records);
        }
    }
}
