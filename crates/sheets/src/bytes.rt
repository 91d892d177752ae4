// Bytes by their offset: a byte past the end reads 0, and a part that reaches past the end is cut
// there.
ghost use Rattle.std.specs.Prelude.{◌≡◌, drop, slice_index};
ghost use Rattle.sheets.specs.Layout.{word, part};

pub(crate) fn byte_at(bytes: &[u8], i: usize) -> u8
    ensures { result ≡ slice_index bytes.now i }
{
    bytes.get(i).copied().unwrap_or(0)
}

// The two-byte number at offset i, the high byte first.
pub(crate) fn word_at(bytes: &[u8], i: u32) -> u16
    ensures { result ≡ word bytes.now i }
{
    let at = i as usize;
    u16::from_be_bytes([byte_at(bytes, at), byte_at(bytes, at + 1)])
}

/// The bytes from offset i on, none where it is past the end.
pub fn bytes_from(bytes: &[u8], i: usize) -> &[u8]
    ensures { result.now ≡ drop i bytes.now }
{
    bytes.get(i..).unwrap_or(&[])
}

/// `len` bytes from an offset on, fewer where the bytes end before.
pub fn part_of(bytes: &[u8], offset: usize, len: usize) -> &[u8]
    ensures { result.now ≡ part bytes.now offset len }
{
    let rest = bytes_from(bytes, offset);
    rest.get(..len).unwrap_or(rest)
}
