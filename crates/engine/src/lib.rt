// The engine of document 01: the call on two tables and three lent buffers.

#![tactic(auto)]

mod added;
mod answers;
mod bytes;
mod classes;
mod forest;
mod refusal;
mod summaries;
mod verdict;

ghost use Rattle.std.specs.Prelude.{◌≡◌};
ghost use Rattle.demands.specs.Answers.{numbers_of};
ghost use Rattle.demands.specs.Call.{Called, buffers_of};
ghost use Rattle.engine.specs.Refusals.{answer_of};

use demands::{Answer, Numbers};
use refusal::Refusal;
use running::run;

// The tables read, the run, and its verdict. "The critical disequality is the lowest record of kind 2 whose sides are joined when no step is left.
// None: consistent." Row 8 stands before row 7.
fn judged(
    terms: &[u8],
    literals: &[u8],
    partition: &mut [u8],
    added: &mut [u8],
    clauses: &mut [u8],
) -> Result<Answer, Refusal>
    ensures { Called terms.now literals.now (buffers_of partition.old added.old clauses.old) (record { numbers = numbers_of (answer_of result); buffers = buffers_of partition.new added.new clauses.new }) }
{
    let tables = reading::read(terms, literals)?;
    let end = run::own_run(&tables, literals)?;
    match verdict::critical(literals, &end.labels) {
        None => answers::consistent(&tables, &end.labels, partition),
        Some(d) => answers::inconsistent(&tables, &end, d, literals, added, clauses),
    }
}

// Any two byte strings, judged: the answer, and every byte of the lent buffers, are those of the definition.
pub fn split(
    terms: &[u8],
    literals: &[u8],
    partition: &mut [u8],
    added: &mut [u8],
    clauses: &mut [u8],
) -> Answer
    ensures { Called terms.now literals.now (buffers_of partition.old added.old clauses.old) (record { numbers = numbers_of result; buffers = buffers_of partition.new added.new clauses.new }) }
{
    match judged(terms, literals, partition, added, clauses) {
        Ok(answer) => answer,
        Err(refusal) => Answer::from(refusal),
    }
}

// The numbers of an answer.
pub fn told(answer: Answer) -> Numbers
    ensures { result ≡ numbers_of answer }
{
    Numbers::from(answer)
}
