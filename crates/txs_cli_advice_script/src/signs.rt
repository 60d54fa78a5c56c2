//! What a word that isn't read is, by its first bytes, and what to write in its place.

ghost use Rattle.std.specs.Prelude.{◌≡◌, [], ◌∷◌, None, map, slice_index_or};
ghost use Rattle.std.specs.Option.{option_copied, option_map, option_or};
ghost use Rattle.txs_cli_advice_script.specs.Rows.{said_in, said_of};
ghost use Rattle.txs_cli_advice_script.specs.Shown.{front_of, text_of};
ghost use Rattle.txs_cli_advice_script.specs.Signs.{begins_number, left_out};

use crate::rows::{Row, in_rows, of_bytes};
use std::str;

/// Words or beginnings of them with a space between each two, and what to do about them.
type Known = (&'static str, Option<&'static str>);

/// What begins as code in its byte form, where a script is wanted.
static CODE: [Known; 1] = [(
    "TXS1 TXS2",
    Some("This is code in its byte form: `run`, `schedule` and `dis` take it with `--code`."),
)];

/// Words that read as nothing, by their first character.
static MARKS: [Known; 2] = [
    (
        "\u{FEFF}",
        Some("Save the script without a byte order mark: its three bytes are here."),
    ),
    (
        "\u{2018} \u{2019} \u{201A} \u{201B} \u{201C} \u{201D} \u{201E} \u{201F}",
        Some("Write a text between two straight quotes, as \"text\"."),
    ),
];

/// Words that are left out, by their first byte.
static FIRST: [Row; 12] = [
    (
        "{",
        "A map is left out: write a vector, and name its indices by `def`.",
    ),
    (
        "}",
        "Maps and sets are left out, and so are their brackets: write a vector.",
    ),
    (
        "\\",
        "A character is left out: write a text of one character, as \"a\".",
    ),
    (
        "'",
        "A quote is left out, since lists and symbols are no values: write a vector or a keyword.",
    ),
    (
        "`",
        "A syntax quote is left out, since there are no macros: write a `defn`.",
    ),
    (
        "~",
        "An unquote is left out, since there are no macros: write a `defn`.",
    ),
    (
        "^",
        "Metadata is left out: take out the `^` and the hint after it.",
    ),
    (
        "&",
        "`&` is left out: pass one vector for the rest of the arguments.",
    ),
    (
        "%",
        "`%` is left out with `#( )`: write a `defn` above, whose parameters have names.",
    ),
    (
        ":",
        "A keyword of a namespace is left out: write a colon and a name alone, as `:a`.",
    ),
    (
        ".",
        "A call of Java is left out: a name doesn't begin with a dot.",
    ),
    (
        "/",
        "`/` is left out, since there are no ratios: write `quot`, and `rem` or `mod` for what is left.",
    ),
];

/// Words that begin with `#`, by the next byte.
static DISPATCH: [Row; 12] = [
    (
        "{",
        "A set is left out: write a vector, and look through it in a `loop`.",
    ),
    (
        "(",
        "`#( )` is left out: write a `defn` above, and name it here.",
    ),
    (
        "\"",
        "A regular expression is left out: texts are printed and compared whole.",
    ),
    (
        "'",
        "`#'` is left out: write the name alone, without a quote.",
    ),
    (
        "_",
        "`#_` is left out: put a `;` before each line that isn't to be read.",
    ),
    (
        "?",
        "A reader conditional is left out: write only what follows its `:clj`.",
    ),
    (
        "#",
        "Infinities and `##NaN` are left out with floats: write a whole number.",
    ),
    (
        ":",
        "A map is left out: write a vector, and name its indices by `def`.",
    ),
    (
        "^",
        "Metadata is left out: take out the `#^` and the hint after it.",
    ),
    (
        "!",
        "A comment begins with `;` alone, also in the first line.",
    ),
    ("=", "`#=` is left out: write the value itself."),
    (
        "<",
        "What is printed as `#<..>` can't be read: write the value itself.",
    ),
];

/// A word that begins with `#` and has any other byte next.
const TAGGED: &str = "A tagged literal is left out: write a number, a text, a keyword or a vector.";

/// Numbers that are left out, by a byte of theirs, of which the first in this order counts.
static NUMBERS: [Row; 4] = [
    (
        "/",
        "A ratio is left out: write `(quot a b)`, or count in smaller units.",
    ),
    (
        "xXrR",
        "A number in another base is left out: write it in base ten.",
    ),
    (
        ".eEM",
        "Floats and decimals are left out: count in smaller units, as cents, by whole numbers.",
    ),
    (
        "N",
        "Big numbers are left out: write the number without its `N`, where it has 64 bits.",
    ),
];

/// What to do about any other number.
const DIGITS: &str =
    "Write a whole number by its digits alone, in base ten, with no zero in front.";

/// Names that are left out, by a byte of theirs.
static QUALIFIED: [Row; 1] = [(
    "/",
    "A name of another namespace or of a class is left out: write a `defn` of its own, with no `/` in its name.",
)];

/// Whether a word is a number, by its first two bytes.
fn begins_number(first: u8, second: u8) -> bool
    ensures { result ≡ begins_number first second }
{
    first.is_ascii_digit() || ((first == b'+' || first == b'-') && second.is_ascii_digit())
}

/// What to do about a word that begins with `#`, by the next byte.
#[tactic(auto, using(crate::proofs::Texts::option_copied_laws))]
fn of_dispatch(second: u8) -> Option<&'static str>
    ensures { option_copied result ≡ option_or (said_of (map (λ row. (row.0.now, row.1.now)) DISPATCH) (second ∷ [])) (Some TAGGED.now) }
{
    of_bytes(&DISPATCH, &[second]).or(Some(TAGGED))
}

/// What to do about a word that is neither that nor a number, by its first byte, or since it is the name of another namespace.
#[tactic(auto, using(crate::proofs::Texts::option_copied_laws))]
fn of_first(first: u8, word: &[u8]) -> Option<&'static str>
    ensures { option_copied result ≡ option_or (said_of (map (λ row. (row.0.now, row.1.now)) FIRST) (first ∷ [])) (said_of (map (λ row. (row.0.now, row.1.now)) QUALIFIED) word.now) }
{
    of_bytes(&FIRST, &[first]).or(of_bytes(&QUALIFIED, word))
}

/// What to do about a word that is left out, with this byte after it; nothing is known of some.
#[tactic(auto, unfolding(crate::specs::Signs::left_out))]
pub fn of_left_out(word: &[u8], next: u8) -> Option<&'static str>
    ensures { option_copied result ≡ left_out (slice_index_or word.now 0 0) (slice_index_or word.now 1 next) word.now }
{
    let first = byte_at(word, 0, 0);
    let second = byte_at(word, 1, next);
    if first == b'#' {
        of_dispatch(second)
    } else if begins_number(first, second) {
        of_number(word)
    } else {
        of_first(first, word)
    }
}

/// The byte at an index, or this past the end.
pub fn byte_at(bytes: &[u8], i: usize, otherwise: u8) -> u8
    ensures { result ≡ slice_index_or bytes.now i otherwise }
{
    bytes.get(i).copied().unwrap_or(otherwise)
}

/// What to do about a number that is left out.
#[tactic(auto, using(crate::proofs::Texts::option_copied_laws))]
fn of_number(word: &[u8]) -> Option<&'static str>
    ensures { option_copied result ≡ option_or (said_of (map (λ row. (row.0.now, row.1.now)) NUMBERS) word.now) (Some DIGITS.now) }
{
    of_bytes(&NUMBERS, word).or(Some(DIGITS))
}

/// The characters that these bytes are; none where they are no characters.
#[tactic(auto, using(crate::proofs::Texts::text_of_laws))]
pub fn text_of(bytes: &[u8]) -> &str
    ensures { result.now ≡ text_of bytes.now }
{
    match str::from_utf8(bytes) {
        Ok(text) => text,
        Err(_) => "",
    }
}

/// The bytes from the first on, so many; none where there are fewer.
fn front_of(bytes: &[u8], count: usize) -> &[u8]
    ensures { result.now ≡ front_of count bytes.now }
{
    if count <= bytes.len() {
        &bytes[..count]
    } else {
        &[]
    }
}

/// What the row says that has the first bytes, so many.
fn of_front(rows: &'static [Known], bytes: &[u8], count: usize) -> Option<&'static str>
    ensures { option_copied result ≡ said_in (map (λ row. (row.0.now, option_copied row.1)) rows.now) (text_of (front_of count bytes.now)) None }
{
    in_rows(rows, text_of(front_of(bytes, count)), None)
}

/// What to do about what is called and is no function, by its first byte; nothing about a number or a text.
static CALLED: [Row; 4] = [
    (
        "(@",
        "Put the name of a function here: write a `defn` above for what it does, and name that.",
    ),
    ("[", "A vector is no function: write `(nth v i)`."),
    (
        ":",
        "A keyword is no function, since there are no maps: take an item of a vector by `nth`.",
    ),
    ("\"+-0123456789", ""),
];

/// Values whose names read as symbols, of which nothing is known either.
static VALUES: [Known; 1] = [("nil true false", Some(""))];

/// What to do about what is called and is no function, but for a symbol; an empty text where nothing is known.
pub fn of_called(word: &str) -> Option<&'static str>
    ensures { option_copied result ≡ option_or (said_of (map (λ row. (row.0.now, row.1.now)) CALLED) (front_of 1 word.now)) (said_in (map (λ row. (row.0.now, option_map (λ text. text.now) row.1)) VALUES) word.now None) }
{
    of_bytes(&CALLED, front_of(word.as_bytes(), 1)).or(in_rows(&VALUES, word, None))
}

/// What to do about a text that begins as code in its byte form does.
pub fn of_code(text: &[u8]) -> Option<&'static str>
    ensures { option_copied result ≡ said_in (map (λ row. (row.0.now, option_map (λ text. text.now) row.1)) CODE) (text_of (front_of 4 text.now)) None }
{
    of_front(&CODE, text, 4)
}

/// What to do about a word of which no character may begin one.
pub fn of_mark(word: &[u8]) -> Option<&'static str>
    ensures { option_copied result ≡ said_in (map (λ row. (row.0.now, option_map (λ text. text.now) row.1)) MARKS) (text_of (front_of 3 word.now)) None }
{
    of_front(&MARKS, word, 3)
}
