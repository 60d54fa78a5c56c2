//! The escapes of a text.

ghost use Rattle.std.specs.Prelude.{◌≡◌, ◌∷◌, [], ◌<◌, ◌≤◌, length, slice_index, IfSome, IfNone, MatchOption};
ghost use Rattle.std.specs.Char.{digit_value};
ghost use Rattle.std.specs.Str.Parse.{AllDigits, digits_value};
ghost use Rattle.txs_reader.specs.Escapes.{BeginsEscape};
ghost use Rattle.txs_reader.specs.Quoted.{short_value, IsAtPart};

/// What an escape stands for, and how many bytes it has.
#[derive(Clone, Copy)]
pub struct Escape {
    pub value: char,
    pub len: usize,
}

/// The byte that a backslash and this letter stand for.
#[tactic(auto, unfolding(crate::specs::Quoted::short_value))]
fn short_value(letter: u8) -> Option<u8>
    ensures { result ≡ short_value letter }
{
    match letter {
        b't' => Some(9),
        b'r' => Some(13),
        b'n' => Some(10),
        b'b' => Some(8),
        b'f' => Some(12),
        b'\\' => Some(b'\\'),
        b'"' => Some(b'"'),
        _ => None,
    }
}

/// The value of a hexadecimal digit.
fn digit(byte: u8) -> Option<u32>
    ensures { MatchOption result (¬ (digit_value byte < 16)) (λ v. (v ≡ digit_value byte) × (v < 16)) }
{
    char::from(byte).to_digit(16)
}

/// The number that four hexadecimal digits write.
fn code(a: u8, b: u8, c: u8, d: u8) -> Option<u32>
    ensures { MatchOption result (¬ AllDigits 16 (a ∷ b ∷ c ∷ d ∷ []))
        (λ v. AllDigits 16 (a ∷ b ∷ c ∷ d ∷ []) × (v ≡ digits_value 16 (a ∷ b ∷ c ∷ d ∷ []))) }
{
    let a = digit(a)?;
    let b = digit(b)?;
    let c = digit(c)?;
    let d = digit(d)?;
    Some(((a * 16 + b) * 16 + c) * 16 + d)
}

/// The escape that begins with a backslash and a `u`.
fn read_code(bytes: &[u8]) -> Option<Escape>
    requires some { 2 ≤ length bytes.now }
    requires begins { slice_index bytes.now 0 ≡ 92 }
    requires letter { slice_index bytes.now 1 ≡ 117 }
    ensures some { IfSome result (λ e. BeginsEscape bytes.now e.value e.len) }
    ensures none { IfNone result (¬ IsAtPart bytes.now) }
{
    if bytes.len() < 6 {
        return None;
    }
    match code(bytes[2], bytes[3], bytes[4], bytes[5]) {
        Some(code) => match char::from_u32(code) {
            Some(value) => Some(Escape { value, len: 6 }),
            None => None,
        },
        None => None,
    }
}

/// The escape that begins with a backslash.
pub fn read_escape(bytes: &[u8]) -> Option<Escape>
    requires some { 0 < length bytes.now }
    requires begins { slice_index bytes.now 0 ≡ 92 }
    ensures some { IfSome result (λ e. BeginsEscape bytes.now e.value e.len) }
    ensures none { IfNone result (¬ IsAtPart bytes.now) }
{
    if bytes.len() < 2 {
        return None;
    }
    if bytes[1] == b'u' {
        return read_code(bytes);
    }
    match short_value(bytes[1]) {
        Some(byte) => Some(Escape {
            value: char::from(byte),
            len: 2,
        }),
        None => None,
    }
}
