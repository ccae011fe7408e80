// The engine's call, for C: the library `engine` is for Rattle's crates, and this one is the archive.

#![tactic(auto)]

ghost use Rattle.demands.specs.Call.{Called, buffers_of};

use demands::Numbers;
use engine::{split, told};

// The call for C.
#[unsafe(no_mangle)]
pub extern "C" fn anahruyk_split(
    terms: &[u8],
    literals: &[u8],
    partition: &mut [u8],
    added: &mut [u8],
    clauses: &mut [u8],
) -> Numbers
    ensures { Called terms.now literals.now (buffers_of partition.old added.old clauses.old) (record { numbers = result; buffers = buffers_of partition.new added.new clauses.new }) }
{
    let answer = split(terms, literals, partition, added, clauses);
    told(answer)
}
