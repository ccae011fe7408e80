// The term table of document 01: row 3 of the checks, and its columns as arrays. The tests of one record are joined
// by | and &, so that each is the definition's own.

ghost use Rattle.std.specs.Prelude.{◌||◌, ◌≡◌, ◌+◌, ◌*◌, ◌≤◌, ◌<◌, length};
ghost use Rattle.tables.specs.Bytes.{byte_at, word_at};
ghost use Rattle.tables.specs.Tests.{some_below, spare_wrong, not_lower, unused_not_zero, breaks_layout};
ghost use Rattle.tables.specs.TermTable.{term_count, term_record, row_of};
ghost use Rattle.tables.specs.Checks.{layout_row};
ghost use Rattle.tables.specs.Read.{filled};

use super::{bytes, filling};
use tables::{TERM_BYTES, TERMS};

// "3 zero", "12-15 zero".
fn spare_wrong(r: &[u8]) -> bool
    requires { length r.now ≡ 16 }
    ensures { result ≡ spare_wrong r.now }
{
    (r[3] != 0) | (r[12] != 0) | (r[13] != 0) | (r[14] != 0) | (r[15] != 0)
}

// An argument within the arity has to be lower than the record's own number, one past it zero.
#[tactic(auto, unfolding(tables::specs::Tests::not_lower, tables::specs::Tests::unused_not_zero))]
fn argument_wrong(r: &[u8], k: usize, j: usize) -> bool
    requires { (length r.now ≡ 16) × (j < 4) }
    ensures { result ≡ (not_lower k r.now j || unused_not_zero r.now j) }
{
    let arity = r[2] as usize;
    let argument = bytes::word_at(r, 4 + 2 * j) as usize;
    ((j < arity) & (k <= argument)) | ((arity <= j) & (argument != 0))
}

// The four argument fields, up to the first wrong one.
fn arguments_wrong(r: &[u8], k: usize) -> bool
    requires { length r.now ≡ 16 }
    ensures { result ≡ some_below (λ j. not_lower k r.now j || unused_not_zero r.now j) 4 }
{
    (0..4).any(|j| argument_wrong(r, k, j))
}

// Row 3: "a term record breaks its layout".
fn breaks_layout(terms: &[u8], k: usize) -> bool
    requires { 16 * k + 16 ≤ length terms.now }
    ensures { result ≡ breaks_layout terms.now k }
{
    let r = bytes::record::<TERM_BYTES>(terms, k);
    (r[2] > 4) | spare_wrong(r) | arguments_wrong(r, k)
}

// Row 3's place: the first record that breaks its layout.
pub fn layout_row(terms: &[u8]) -> Option<usize>
    ensures { result ≡ layout_row terms.now }
{
    (0..terms.len() / TERM_BYTES).find(|&k| breaks_layout(terms, k))
}

// The byte at an offset of each record: the arities.
pub fn term_bytes(terms: &[u8], at: usize) -> [u8; TERMS]
    requires { at < 16 }
    ensures { result ≡ filled 256 0 (term_count terms.now) (λ k. byte_at (term_record terms.now k) at) }
{
    filling::filled(
        terms.len() / TERM_BYTES,
        0,
        |k| bytes::record::<TERM_BYTES>(terms, k)[at],
    )
}

// The number at an offset of each record: the symbols.
pub fn term_words(terms: &[u8], at: usize) -> [u16; TERMS]
    requires { at + 1 < 16 }
    ensures { result ≡ filled 256 0 (term_count terms.now) (λ k. word_at (term_record terms.now k) at) }
{
    filling::filled(
        terms.len() / TERM_BYTES,
        0,
        |k| bytes::word_at(bytes::record::<TERM_BYTES>(terms, k), at),
    )
}

// A record's four arguments as a row, used or not.
#[tactic(auto, unfolding(tables::specs::TermTable::row_of))]
pub fn row(r: &[u8]) -> [u16; 4]
    requires { length r.now ≡ 16 }
    ensures { result ≡ row_of r.now }
{
    [
        bytes::word_at(r, 4),
        bytes::word_at(r, 6),
        bytes::word_at(r, 8),
        bytes::word_at(r, 10),
    ]
}
