// The two verdicts: room, and then the bytes.

ghost use Rattle.std.specs.Prelude.{List, map, ◌≡◌, ℕ, ◌≤◌};
ghost use Rattle.demands.specs.Answers.{numbers_of};
ghost use Rattle.demands.specs.Buffers.{term_bytes};
ghost use Rattle.demands.specs.Call.{consistent as consistent_by, inconsistent as inconsistent_by};
ghost use Rattle.engine.specs.Ending.{Decides, records_for, class_bytes};
ghost use Rattle.engine.specs.Refusals.{answer_of};

use super::refusal::{Buffer, Refusal};
use super::{added, classes, summaries};
use closure::VERTICES;
use demands::Answer;
use running::state::State;
use tables::{TERM_BYTES, Tables};

// No disequality has its sides joined: the partition, where it has room.
pub fn consistent(
    tables: &Tables,
    labels: &[u16; VERTICES],
    partition: &mut [u8],
) -> Result<Answer, Refusal>
    requires { tables.now.terms ≤ 256 }
    ensures { (added clauses : List ℕ) → record { numbers = numbers_of (answer_of result); buffers = record { partition = partition.new; added = added; clauses = clauses } } ≡ consistent_by (record { partition = partition.old; added = added; clauses = clauses }) (class_bytes tables.now.used labels.now tables.now.terms) }
{
    if partition.len() < 2 * tables.terms {
        return Err(Refusal::Short(Buffer::Partition));
    }
    classes::write_partition(&tables.used, labels, tables.terms, partition);
    Ok(Answer::Consistent)
}

// The critical disequality is d: the added terms and the clause records, where both have room.
pub fn inconsistent(
    tables: &Tables,
    end: &State,
    d: usize,
    literals: &[u8],
    added: &mut [u8],
    clauses: &mut [u8],
) -> Result<Answer, Refusal>
    requires { (w : Decides tables.now end.now d) × (w.ends.from.literals ≡ literals.now) }
    ensures { (w : Decides tables.now end.now d) → w.ends.from.literals ≡ literals.now → (partition : List ℕ) → record { numbers = numbers_of (answer_of result); buffers = record { partition = partition; added = added.new; clauses = clauses.new } } ≡ inconsistent_by (record { partition = partition; added = added.old; clauses = clauses.old }) d (map term_bytes w.ends.state.added) (records_for w) }
{
    let count = end.terms - tables.terms;
    if added.len() < TERM_BYTES * count {
        return Err(Refusal::Short(Buffer::Added));
    }
    let room = clauses.len() / 8;
    let records = summaries::clause_records(end, d, literals, clauses);
    if room < records {
        return Err(Refusal::Short(Buffer::Clauses));
    }
    added::write_added(end, tables.terms, added);
    Ok(Answer::Inconsistent {
        disequality: d,
        added: count,
        records,
    })
}
