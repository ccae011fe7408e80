// The lines of the Horn clauses: a line for each, its premises and its conclusion.

ghost use mathlib.Core.List.{flat_map};
ghost use Rattle.std.specs.Prelude.{◌-◌, ◌≤◌, ◌<◌};
ghost use Rattle.tables.specs.Bytes.{count_of, record_at};
ghost use Rattle.clauses.specs.ReadBack.{pair_read, conclusion_read, clauses_read};
ghost use Rattle.report.specs.Writer.{Writes};
ghost use Rattle.report.specs.Text.{pair_text, and_pair, premises_text, conclusion_text, clause_line};
ghost use Rattle.report.specs.Records.{pairs_from, clause_of};

use super::fields;
use super::writer::Writer;

// The size of a clause record.
pub const RECORD: usize = 8;

// A clause record's kind, its first byte, which may be any in a lent buffer; so these are numbers, and no enum: a premise,
const PREMISE: u8 = 1;

// a conclusion that is an equality,
const EQUAL: u8 = 2;

// or one that is a disequality. Kind 4 concludes false, and so does any other.
const DIFFERENT: u8 = 3;

// Writes the two terms of clause record j with a sign between them.
fn pair(out: &mut Writer<'_>, clauses: &[u8], j: usize, sign: &[u8])
    requires { j < count_of 8 clauses.now }
    ensures { Writes out.old out.new (pair_text sign.now (pair_read (record_at 8 clauses.now j))) }
{
    out.number(fields::word(clauses, RECORD * j + 2));
    out.text(sign);
    out.number(fields::word(clauses, RECORD * j + 4));
}

// Writes a premise that is not the first.
fn and_premise(out: &mut Writer<'_>, clauses: &[u8], j: usize)
    requires { j < count_of 8 clauses.now }
    ensures { Writes out.old out.new (and_pair (pair_read (record_at 8 clauses.now j))) }
{
    out.text(b" & ");
    pair(out, clauses, j, b"=");
}

// Writes the premises that follow the first one: the records before the conclusion.
fn more_premises(out: &mut Writer<'_>, clauses: &[u8], from: usize, conclusion: usize)
    requires { (from ≤ conclusion) × (conclusion < count_of 8 clauses.now) }
    ensures { Writes out.old out.new (flat_map and_pair (pairs_from clauses.now from (conclusion - from))) }
{
    for j in from..conclusion {
        and_premise(out, clauses, j);
    }
}

// Writes the premises of a clause and the arrow: the records from start to the conclusion.
fn premises(out: &mut Writer<'_>, clauses: &[u8], start: usize, conclusion: usize)
    requires { (start ≤ conclusion) × (conclusion < count_of 8 clauses.now) }
    ensures { Writes out.old out.new (premises_text (pairs_from clauses.now start (conclusion - start))) }
{
    if start == conclusion {
        out.text(b"-> ");
    } else {
        pair(out, clauses, start, b"=");
        more_premises(out, clauses, start + 1, conclusion);
        out.text(b" -> ");
    }
}

// Writes what clause record j concludes.
fn conclusion_text(out: &mut Writer<'_>, clauses: &[u8], j: usize)
    requires { j < count_of 8 clauses.now }
    ensures { Writes out.old out.new (conclusion_text (conclusion_read (record_at 8 clauses.now j))) }
{
    match fields::byte(clauses, RECORD * j) {
        EQUAL => pair(out, clauses, j, b"="),
        DIFFERENT => pair(out, clauses, j, b"!="),
        _ => out.text(b"false"),
    }
}

// Writes the line of a clause: its premises from start on, and its conclusion.
fn clause_line(out: &mut Writer<'_>, clauses: &[u8], start: usize, conclusion: usize)
    requires { (start ≤ conclusion) × (conclusion < count_of 8 clauses.now) }
    ensures { Writes out.old out.new (clause_line (clause_of clauses.now start conclusion)) }
{
    premises(out, clauses, start, conclusion);
    conclusion_text(out, clauses, conclusion);
    out.put(b'\n');
}

// Writes the lines of all clauses: each ends with its conclusion, and the next one starts behind it.
pub fn clause_lines(out: &mut Writer<'_>, clauses: &[u8], records: usize)
    requires { records ≤ count_of 8 clauses.now }
    ensures { Writes out.old out.new (flat_map clause_line (clauses_read records clauses.now)) }
{
    let mut start = 0;
    for i in 0..records {
        if fields::byte(clauses, RECORD * i) == PREMISE {
            continue;
        }
        clause_line(out, clauses, start, i);
        start = i + 1;
    }
}
