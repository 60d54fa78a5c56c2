//! Which bytes are what, and how many of them there are.

ghost use Rattle.std.specs.Prelude.{◌≡◌};
ghost use Rattle.std.specs.List.{count_by};
ghost use Rattle.txs_reader.specs.Place.{is_newline, begins_character, characters};

/// Whether a character begins with this byte: any but 0x80 to 0xBF, which continue one in UTF-8.
pub(crate) fn begins_character(byte: u8) -> bool
    ensures { result ≡ begins_character byte }
{
    !matches!(byte, 0x80..=0xBF)
}

/// How many newlines there are.
pub(crate) fn newlines(bytes: &[u8]) -> usize
    ensures { result ≡ count_by is_newline bytes.now }
{
    let mut count = 0;
    for byte in bytes {
        if *byte == b'\n' {
            count += 1;
        }
    }
    count
}

/// How many characters begin here.
pub(crate) fn characters(bytes: &[u8]) -> usize
    ensures { result ≡ characters bytes.now }
{
    let mut count = 0;
    for byte in bytes {
        if begins_character(*byte) {
            count += 1;
        }
    }
    count
}
