// Numbers read out of a lent buffer, which reads as 0 past its end.

ghost use Rattle.std.specs.Prelude.{◌≡◌};
ghost use Rattle.tables.specs.Bytes.{byte_at, word_at};

// The byte at a place.
pub fn byte(s: &[u8], at: usize) -> u8
    ensures { result ≡ byte_at s.now at }
{
    s.get(at).copied().unwrap_or(0)
}

// The number of two bytes at a place, the low byte first.
pub fn word(s: &[u8], at: usize) -> usize
    ensures { result ≡ word_at s.now at }
{
    let bytes = [byte(s, at), byte(s, at.saturating_add(1))];
    usize::from(u16::from_le_bytes(bytes))
}
