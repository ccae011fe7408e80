// The literal table of document 01: row 6 of the checks. The tests of one record are joined by |, so that each is
// the definition's own.

ghost use Rattle.std.specs.Prelude.{◌≡◌, ◌+◌, ◌*◌, ◌≤◌, length};
ghost use Rattle.tables.specs.Words.{first_below};
ghost use Rattle.tables.specs.LiteralTable.{literal_count};
ghost use Rattle.tables.specs.Tests.{not_one_or_two, breaks_literal};

use super::bytes;
use tables::LITERAL_BYTES;

// "side or kind not 1 or 2". A byte and no enum, for row 6 speaks of any byte.
#[tactic(auto, unfolding(tables::specs::Tests::not_one_or_two))]
fn not_one_or_two(b: u8) -> bool
    ensures { result ≡ not_one_or_two b }
{
    !((b == 1) | (b == 2))
}

// Row 6, of literal record k in a table of so many terms.
#[tactic(auto, unfolding(tables::specs::Tests::breaks_literal))]
fn breaks_literal(terms: usize, literals: &[u8], k: usize) -> bool
    requires { 8 * k + 8 ≤ length literals.now }
    ensures { result ≡ breaks_literal terms literals.now k }
{
    let r = bytes::record::<LITERAL_BYTES>(literals, k);
    let side = not_one_or_two(r[0]);
    let kind = not_one_or_two(r[1]);
    let left = terms <= bytes::word_at(r, 2) as usize;
    let right = terms <= bytes::word_at(r, 4) as usize;
    let spare = bytes::word_at(r, 6) != 0;
    side | kind | left | right | spare
}

// Row 6's place: the first literal record that breaks it.
pub fn literal_row(terms: usize, literals: &[u8]) -> Option<usize>
    ensures { result ≡ first_below (breaks_literal terms literals.now) (literal_count literals.now) }
{
    (0..literals.len() / LITERAL_BYTES).find(|&k| breaks_literal(terms, literals, k))
}
