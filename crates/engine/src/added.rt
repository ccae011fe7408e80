// The records of the added terms.

ghost use Rattle.std.specs.Prelude.{◌≡◌, ◌-◌, ◌*◌, ◌≤◌, length};
ghost use Rattle.demands.specs.Buffers.{written_over};
ghost use Rattle.engine.specs.Ending.{record_bytes, records_bytes};

use super::bytes;
use running::state::State;
use tables::TERM_BYTES;

// "Term record, 16 bytes": the symbol, the arity, the arguments, and zeros.
fn term_record(symbol: u16, arity: u8, args: [u16; 4]) -> [u8; TERM_BYTES]
    ensures { result ≡ record_bytes symbol arity args }
{
    let f = bytes::word(symbol);
    let a = bytes::word(args[0]);
    let b = bytes::word(args[1]);
    let c = bytes::word(args[2]);
    let d = bytes::word(args[3]);
    [
        f[0], f[1], arity, 0, a[0], a[1], b[0], b[1], c[0], c[1], d[0], d[1], 0, 0, 0, 0,
    ]
}

// "the added terms (16 bytes each, numbered on from n in order of adding)": those behind the given ones; the bytes past them stay.
pub fn write_added(end: &State, given: usize, added: &mut [u8])
    requires { (given ≤ end.now.terms) × (end.now.terms ≤ 511) × (16 * (end.now.terms - given) ≤ length added.old) }
    ensures { added.new ≡ written_over (records_bytes given end.now) added.old }
{
    for i in 0..end.terms - given {
        let v = given + i;
        let record = term_record(end.symbols[v], end.arities[v], end.rows[v]);
        bytes::put(&record, TERM_BYTES * i, added);
    }
}
