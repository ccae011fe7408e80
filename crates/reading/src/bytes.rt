// Bytes of a table: its records, and the numbers in them.

ghost use Rattle.std.specs.Prelude.{◌≡◌, ◌+◌, ◌*◌, ◌≤◌, ◌<◌, length};
ghost use Rattle.tables.specs.Bytes.{word_at, record_at};

// The bytes of record k of a table of SIZE bytes a record, so that a field is read at its own offset.
pub fn record<const SIZE: usize>(table: &[u8], k: usize) -> &[u8]
    requires { SIZE * k + SIZE ≤ length table.now }
    ensures { (result.now ≡ record_at SIZE table.now k) × (length result.now ≡ SIZE) }
{
    let start = SIZE * k;
    let end = start + SIZE;
    &table[start..end]
}

// "numbers little-endian": the low byte first.
pub fn word_at(s: &[u8], at: usize) -> u16
    requires { at + 1 < length s.now }
    ensures { result ≡ word_at s.now at }
{
    u16::from_le_bytes([s[at], s[at + 1]])
}
