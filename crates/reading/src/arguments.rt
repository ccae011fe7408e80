// The arguments of all terms.

ghost use Rattle.std.specs.Prelude.{◌≡◌, ◌+◌, ◌*◌, ◌≤◌, length};
ghost use Rattle.tables.specs.TermTable.{term_record, row_of};
ghost use Rattle.tables.specs.Read.{argument_rows};

use super::{bytes, filling, term_table};
use tables::{TERM_BYTES, TERMS};

// "The arguments are worked on as a row of four for each term." Of any bytes: as many whole records as there are and fit.
pub fn rows(terms: &[u8]) -> [[u16; 4]; TERMS]
    ensures { result ≡ argument_rows terms.now }
{
    filling::filled(
        terms.len() / TERM_BYTES,
        [0u16; 4],
        |k|
            requires { 16 * k + 16 ≤ length terms.now }
            ensures { result ≡ row_of (term_record terms.entry.now k) }
        { term_table::row(bytes::record::<TERM_BYTES>(terms, k)) },
    )
}
