// The text of each verdict.

ghost use Rattle.report.specs.Writer.{Writes};
ghost use Rattle.report.specs.Text.{consistent_text, head_text, end_text, inconsistent_text, refused_text};

use super::writer::Writer;
use super::{added, classes, horn};

// A table has at most so many terms.
const MOST_GIVEN: usize = 256;

// A run has fewer steps than there are terms in use, and a step adds one term at most.
const MOST_ADDED: usize = MOST_GIVEN - 1;

// Writes a consistent answer: the verdict, then the given terms.
pub fn consistent(out: &mut Writer<'_>, given: usize, partition: &[u8])
    ensures { Writes out.old out.new (consistent_text given partition.now) }
{
    out.text(b"consistent\n");
    classes::term_lines(out, partition, given.min(MOST_GIVEN));
}

// Writes the first line of an inconsistent answer: the verdict and the disequality.
fn head(out: &mut Writer<'_>, disequality: usize)
    ensures { Writes out.old out.new (head_text disequality) }
{
    out.text(b"inconsistent by ");
    out.number(disequality);
    out.put(b'\n');
}

// Writes the last line of an inconsistent answer: the counts of added terms and clause records.
fn end(out: &mut Writer<'_>, terms: usize, records: usize)
    ensures { Writes out.old out.new (end_text terms records) }
{
    out.text(b"end ");
    out.number(terms);
    out.put(b' ');
    out.number(records);
    out.put(b'\n');
}

// Writes an inconsistent answer: the added terms and the clauses stand between its first line and its last.
pub fn inconsistent(
    out: &mut Writer<'_>,
    disequality: usize,
    terms: usize,
    records: usize,
    given: usize,
    added: &[u8],
    clauses: &[u8],
)
    ensures { Writes out.old out.new (inconsistent_text disequality terms records given added.now clauses.now) }
{
    head(out, disequality);
    added::added_lines(out, given.min(MOST_GIVEN), added, terms.min(MOST_ADDED));
    horn::clause_lines(out, clauses, records.min(clauses.len() / horn::RECORD));
    end(out, terms, records);
}

// Writes a refusal: its number and its place.
pub fn refused(out: &mut Writer<'_>, number: usize, place: usize)
    ensures { Writes out.old out.new (refused_text number place) }
{
    out.text(b"refused ");
    out.number(number);
    out.text(b" at ");
    out.number(place);
    out.put(b'\n');
}
