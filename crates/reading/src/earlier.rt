// Rows 4 and 5 of the checks: each term record beside those before it. The records are read into columns once, and the loops over
// them have no early end, so that the machine compares many at a time.

ghost use Rattle.std.specs.Prelude.{◌≡◌, ◌+◌, ◌*◌, ◌≤◌, ◌<◌, length};
ghost use Rattle.tables.specs.Bytes.{word_at};
ghost use Rattle.tables.specs.Tests.{some_below, equal_records, equals_earlier};
ghost use Rattle.tables.specs.TermTable.{term_count};
ghost use Rattle.tables.specs.Checks.{arity_row, repeated_row};
ghost use Rattle.reading.specs.Keys.{other_arity_in, record_key, record_keys, same_key};

use super::{bytes, filling, term_table};
use tables::{TERM_BYTES, TERMS};

// Row 4: "a symbol had another arity in an earlier record", of the columns.
fn had_other_arity(symbols: &[u16; TERMS], arities: &[u8; TERMS], k: usize) -> bool
    requires { k < 256 }
    ensures { result ≡ some_below (other_arity_in symbols.now arities.now k) k }
{
    let symbol = symbols[k];
    let arity = arities[k];
    let mut found = false;
    for j in 0..k {
        found |= (symbols[j] == symbol) & (arities[j] != arity);
    }
    found
}

// Row 4's place: the first record whose symbol had another arity.
pub fn arity_row(terms: &[u8]) -> Option<usize>
    requires { term_count terms.now ≤ 256 }
    ensures { result ≡ arity_row terms.now }
{
    let symbols = term_table::term_words(terms, 0);
    let arities = term_table::term_bytes(terms, 2);
    (0..terms.len() / TERM_BYTES).find(|&k| had_other_arity(&symbols, &arities, k))
}

// A number of a record among the digits of its key.
fn digit(r: &[u8], at: usize) -> u64
    requires { at + 1 < length r.now }
    ensures { (result ≡ word_at r.now at) × (result < 65536) }
{
    bytes::word_at(r, at) as u64
}

// The digits of a key: a symbol is below the first number, and in a table that rows 2 and 3 refuse nothing of an argument is below the second.
const SYMBOLS: u64 = 65536;

const NUMBERS: u64 = 256;

// A number that equal records have in common. Nothing rests on other records having another; they have, once rows 3 and 4 refuse nothing.
fn record_key(r: &[u8]) -> u64
    requires { length r.now ≡ 16 }
    ensures { result ≡ record_key r.now }
{
    let symbol = digit(r, 0);
    let first = digit(r, 4);
    let second = digit(r, 6);
    let third = digit(r, 8);
    let fourth = digit(r, 10);
    symbol + SYMBOLS * (first + NUMBERS * (second + NUMBERS * (third + NUMBERS * fourth)))
}

// The key of each record.
fn record_keys(terms: &[u8]) -> [u64; TERMS]
    ensures { result ≡ record_keys terms.now }
{
    filling::filled(
        terms.len() / TERM_BYTES,
        0,
        |k| record_key(bytes::record::<TERM_BYTES>(terms, k)),
    )
}

// Whether an earlier record has the key of record k.
fn had_key(keys: &[u64; TERMS], k: usize) -> bool
    requires { k < 256 }
    ensures { result ≡ some_below (same_key keys.now k) k }
{
    let key = keys[k];
    let mut found = false;
    for j in 0..k {
        found |= keys[j] == key;
    }
    found
}

// Whether record k has the same 16 bytes as record j.
fn equal_records(terms: &[u8], k: usize, j: usize) -> bool
    requires { (16 * k + 16 ≤ length terms.now) × (16 * j + 16 ≤ length terms.now) }
    ensures { result ≡ equal_records terms.now k j }
{
    bytes::record::<TERM_BYTES>(terms, j) == bytes::record::<TERM_BYTES>(terms, k)
}

// Row 5: "a term record equals an earlier one", by the bytes.
fn equals_earlier(terms: &[u8], k: usize) -> bool
    requires { 16 * k + 16 ≤ length terms.now }
    ensures { result ≡ equals_earlier terms.now k }
{
    (0..k).any(|j| equal_records(terms, k, j))
}

// Row 5, of record k. The bytes are compared only where the keys leave it open.
fn is_repeated(keys: &[u64; TERMS], terms: &[u8], k: usize) -> bool
    requires { (keys.now ≡ record_keys terms.now) × (term_count terms.now ≤ 256) × (k < term_count terms.now) }
    ensures { result ≡ equals_earlier terms.now k }
{
    had_key(keys, k) && equals_earlier(terms, k)
}

// Row 5's place: the first record that equals an earlier one.
pub fn repeated_row(terms: &[u8]) -> Option<usize>
    requires { term_count terms.now ≤ 256 }
    ensures { result ≡ repeated_row terms.now }
{
    let keys = record_keys(terms);
    (0..terms.len() / TERM_BYTES).find(|&k| is_repeated(&keys, terms, k))
}
