// The text of an answer: the lines that eqsplit prints.

// A function that writes says which text; proofs/Lines has the definitions that its proof opens, and the laws that it uses.
#![tactic(auto, using(crate::proofs::Lines::laws), unfolding(crate::proofs::Lines::lines))]

mod added;
mod classes;
mod fields;
mod horn;
mod verdicts;
mod writer;

ghost use Rattle.std.specs.Prelude.{◌≡◌};
ghost use Rattle.report.specs.Page.{page, shown};
ghost use Rattle.report.specs.Text.{report_of};

use demands::Answer;
use writer::Writer;

// Writes the text of an answer into out, as much of it as there is room for, and returns how many bytes these are. given is the number of
// given terms; partition, added and clauses are the buffers as the call left them.
pub fn report(
    answer: Answer,
    given: usize,
    partition: &[u8],
    added: &[u8],
    clauses: &[u8],
    out: &mut [u8],
) -> usize
    ensures { page out.new result ≡ shown (report_of answer given partition.now added.now clauses.now) out.old }
{
    let mut out = Writer::new(out);
    match answer {
        Answer::Consistent => verdicts::consistent(&mut out, given, partition),
        Answer::Inconsistent {
            disequality,
            added: terms,
            records,
        } => verdicts::inconsistent(&mut out, disequality, terms, records, given, added, clauses),
        Answer::Refused { number, place } => verdicts::refused(&mut out, number, place),
    }
    out.at
}
