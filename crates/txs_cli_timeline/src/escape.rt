//! Texts of a script, in a picture.

ghost use Rattle.std.specs.Prelude.{◌≡◌, ◌++◌, OnErr, OnOk, chars, encode_utf8_all, string_bytes};
ghost use Rattle.txs_cli_timeline.specs.Appended.{Extends};
ghost use Rattle.txs_cli_timeline.specs.Escaped.{escaped, escaped_character, is_hidden};

use std::alloc::AllocError;
use txs_reader::is_escaped;

/// Whether a character can't be seen, changes how others are seen, or may not be in XML.
#[tactic(auto, unfolding(crate::specs::Escaped::is_hidden))]
fn is_hidden(c: char) -> bool
    ensures { result ≡ is_hidden c }
{
    is_escaped(c) || matches!(c, '\u{FFFE}' | '\u{FFFF}')
}

/// Appends what a character is in a picture.
fn push_character(out: &mut String, c: char) -> Result<(), AllocError>
    ensures ok { OnOk result (string_bytes out.new ≡ string_bytes out.old ++ encode_utf8_all (escaped_character c)) }
    ensures err { OnErr result (string_bytes out.new ≡ string_bytes out.old) }
{
    match c {
        '<' => out.push_str("&lt;"),
        '>' => out.push_str("&gt;"),
        '&' => out.push_str("&amp;"),
        '"' => out.push_str("&quot;"),
        '\'' => out.push_str("&#39;"),
        '\n' => out.push('¶'),
        c if is_hidden(c) => out.push('\u{FFFD}'),
        c => out.push(c),
    }
}

/// Appends a text as it is in a picture: what has a meaning in XML is an entity, a newline is `¶`, and any other character that can't be seen, that
/// changes how others are seen or that XML forbids is U+FFFD. After an error a beginning of it may be appended.
pub fn push_escaped(out: &mut String, text: &str) -> Result<(), AllocError>
    ensures ok { OnOk result (string_bytes out.new ≡ string_bytes out.old ++ encode_utf8_all (escaped (chars text.now))) }
    ensures kept { Extends (string_bytes out.old) (string_bytes out.new) }
{
    for c in text.chars() {
        push_character(out, c)?;
    }
    Ok(())
}
