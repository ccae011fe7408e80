// Bytes of an answer, written into a lent buffer.

ghost use Rattle.std.specs.Prelude.{◌++◌, ◌≡◌, ◌+◌, ◌≤◌, length, take};
ghost use Rattle.tables.specs.Bytes.{word_bytes};
ghost use Rattle.demands.specs.Buffers.{written_over};

// "numbers little-endian": the two bytes of a number.
pub fn word(n: u16) -> [u8; 2]
    ensures { result ≡ word_bytes n }
{
    n.to_le_bytes()
}

// Bytes from a place on; what stands before and behind them stays.
pub fn put(bytes: &[u8], at: usize, out: &mut [u8])
    requires { at + length bytes.now ≤ length out.old }
    ensures { out.new ≡ written_over (take at out.old ++ bytes.now) out.old }
{
    out[at..at + bytes.len()].copy_from_slice(bytes);
}
