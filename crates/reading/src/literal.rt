// The fields of a literal record, read straight from its bytes where they are needed: no layer keeps them.

ghost use Rattle.std.specs.Prelude.{◌≡◌, ◌+◌, ◌*◌, ◌≤◌, length};
ghost use Rattle.tables.specs.LiteralTable.{literal_record, literal_of};
ghost use Rattle.reading.specs.Fields.{fields_of};

use super::bytes;
use tables::{Kind, LITERAL_BYTES, Literal, Side};

// "0 side (1 = A, 2 = B)".
const SIDE_A: u8 = 1;

// "1 kind (1 equal, 2 different)".
const EQUAL: u8 = 1;

// Side and kind are the bytes as they stand, no enums: `read_at` says them of any record, also of one that row 6 refuses.
// "0 side (1 = A, 2 = B); 1 kind (1 equal, 2 different); 2-3 left; 4-5 right".
#[derive(Clone, Copy, Debug, PartialEq, Eq)]
pub struct Fields {
    pub side: u8,
    pub kind: u8,
    pub left: u16,
    pub right: u16,
}

// The fields of literal record k.
pub fn read_at(literals: &[u8], k: usize) -> Fields
    requires { 8 * k + 8 ≤ length literals.now }
    ensures { result ≡ fields_of (literal_record literals.now k) }
{
    let r = bytes::record::<LITERAL_BYTES>(literals, k);
    Fields {
        side: r[0],
        kind: r[1],
        left: bytes::word_at(r, 2),
        right: bytes::word_at(r, 4),
    }
}

// The literal of record k, its side and its kind by their names.
#[tactic(auto, unfolding(tables::specs::LiteralTable::literal_of))]
pub fn literal_at(literals: &[u8], k: usize) -> Literal
    requires { 8 * k + 8 ≤ length literals.now }
    ensures { result ≡ literal_of (literal_record literals.now k) }
{
    let f = read_at(literals, k);
    let side = if f.side == SIDE_A { Side::A } else { Side::B };
    let kind = if f.kind == EQUAL {
        Kind::Equal
    } else {
        Kind::Different
    };
    Literal {
        side,
        kind,
        left: f.left,
        right: f.right,
    }
}
