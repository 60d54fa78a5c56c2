// What no clause says: places as editors tell them, and the two lines as they are seen on a terminal.
use txs_reader::place::Position;
use txs_reader::{line_at, position, write_pointed};

// é and ß have two bytes, € three.
const SCRIPT: &str = "(future\n\t(println \"é€\" (inc ß)))\n\nend";

// Its lines.
const FUTURE: &str = "(future";

const PRINTLN: &str = "\t(println \"é€\" (inc ß)))";

const NOTHING: &str = "";

const END: &str = "end";

// Offsets, the line and the column of each, and the text of that line.
const PLACES: [(usize, usize, usize, &str); 12] = [
    (0, 1, 1, FUTURE),
    (6, 1, 7, FUTURE),
    (7, 1, 8, FUTURE),
    (8, 2, 1, PRINTLN),
    (9, 2, 2, PRINTLN),
    (19, 2, 12, PRINTLN),
    (21, 2, 13, PRINTLN),
    (24, 2, 14, PRINTLN),
    (37, 3, 1, NOTHING),
    (38, 4, 1, END),
    (41, 4, 4, END),
    (99, 4, 4, END),
];

#[test]
fn tells_places_and_lines(rt: HostRuntime) {
    let script = SCRIPT.as_bytes();
    for (offset, line, column, text) in &PLACES {
        let place = Position {
            line: *line,
            column: *column,
        };
        let told = position(script, *offset) == place;
        assert!(rt;
            told && line_at(script, *offset) == text.as_bytes(),
            "at {offset}"
        );
    }
    assert!(rt; position(b"", 0) == Position { line: 1, column: 1 });
}

const PIECES: [(usize, usize); 4] = [(18, 25), (26, 34), (0, 30), (41, 41)];

// How these pieces of the script are pointed at, one behind the other.
const POINTED: &str = "\
\t(println \"é€\" (inc ß)))
\t         ^^^^
\t(println \"é€\" (inc ß)))
\t              ^^^^^^^
(future
^^^^^^^
end
   ^
";

#[test]
fn points(rt: HostRuntime) {
    let mut out = Vec::new(rt.alloc());
    let mut written = true;
    for (from, to) in &PIECES {
        written = write_pointed(SCRIPT.as_bytes(), *from, *to, &mut out).is_ok() && written;
    }
    assert!(rt; written && out.as_slice() == POINTED.as_bytes());
}

// Texts, a span of each, and the lines that show it: ends of lines, wide characters and those without width, bytes that are no UTF-8,
// characters that are escaped, and places where there is nothing.
const SEEN: [(&[u8], usize, usize, &str); 23] = [
    (b"(a\r\n (b c)\r\nd", 6, 7, " (b c)\n  ^\n"),
    (b"(a\r\n (b c)\r\nd", 10, 11, " (b c)\n      ^\n"),
    (b"(a\r\n (b c)\r\nd", 11, 12, " (b c)\n      ^\n"),
    (b"(a\r\n (b c)\r\nd", 5, 13, " (b c)\n ^^^^^\n"),
    (b"a\rb", 1, 2, "a\\u000db\n ^^^^^^\n"),
    (b"a\r", 0, 1, "a\n^\n"),
    (b"a\r\r\n", 1, 2, "a\\u000d\n ^^^^^^\n"),
    (b"(\xe5\x90\x8d x)", 5, 6, "(名 x)\n    ^\n"),
    (b"(\xe5\x90\x8d x)", 1, 4, "(名 x)\n ^^\n"),
    (b"e\xcc\x81x", 3, 4, "e\u{301}x\n ^\n"),
    (b"e\xcc\x81x", 1, 3, "e\u{301}x\n ^\n"),
    (b"a\xffb\xe2\x82 c", 2, 3, "a\\xffb\\xe2\\x82 c\n     ^\n"),
    (b"a\xffb\xe2\x82 c", 1, 2, "a\\xffb\\xe2\\x82 c\n ^^^^\n"),
    (
        b"a\xffb\xe2\x82 c",
        3,
        5,
        "a\\xffb\\xe2\\x82 c\n      ^^^^^^^^\n",
    ),
    (
        b"\x1b[31m(f)\t\x7f",
        6,
        7,
        "\\u001b[31m(f)\t\\u007f\n           ^\n",
    ),
    (
        b"\x1b[31m(f)\t\x7f",
        0,
        1,
        "\\u001b[31m(f)\t\\u007f\n^^^^^^\n",
    ),
    (
        b"\x1b[31m(f)\t\x7f",
        9,
        10,
        "\\u001b[31m(f)\t\\u007f\n             \t^^^^^^\n",
    ),
    (b"a\xe2\x80\xaeb", 4, 5, "a\\u202eb\n       ^\n"),
    (b"\xc2\x9bx\xef\xbb\xbf", 2, 3, "\\u009bx\\ufeff\n      ^\n"),
    (b"a\n\nb", 2, 2, "\n^\n"),
    (b"ab", 9, 12, "ab\n  ^\n"),
    (b"", 0, 0, "\n^\n"),
    (b"a\n", 2, 2, "\n^\n"),
];

// 100 columns, and 80 in 40 characters.
const LINE: &str =
    "0123456789012345678901234567890123456789012345678901234567890123456789012345678901234567890123456789";

const NAME: &str = "名名名名名名名名名名名名名名名名名名名名名名名名名名名名名名名名名名名名名名名名";

// The same of lines of more than 72 columns, and of 72.
const CUT: [(&str, usize, usize, &str); 13] = [
    (
        LINE,
        0,
        3,
        "012345678901234567890123456789012345678901234567890123456789012345678901...\n^^^\n",
    ),
    (
        LINE,
        99,
        100,
        "...890123456789012345678901234567890123456789012345678901234567890123456789\n                                                                          ^\n",
    ),
    (
        LINE,
        50,
        53,
        "...456789012345678901234567890123456789012345678901234567890123456789012345...\n                                       ^^^\n",
    ),
    (
        LINE,
        50,
        100,
        "...456789012345678901234567890123456789012345678901234567890123456789012345...\n                                       ^^^^^^^^^^^^^^^^^^^^^^^^^^^^^^^^^^^^\n",
    ),
    (
        LINE,
        100,
        100,
        "...890123456789012345678901234567890123456789012345678901234567890123456789\n                                                                           ^\n",
    ),
    (
        "012345678901234567890123456789012345678901234567890123456789012345678901",
        0,
        72,
        "012345678901234567890123456789012345678901234567890123456789012345678901\n^^^^^^^^^^^^^^^^^^^^^^^^^^^^^^^^^^^^^^^^^^^^^^^^^^^^^^^^^^^^^^^^^^^^^^^^\n",
    ),
    (
        "0123456789012345678901234567890123456789012345678901234567890123456789012",
        72,
        73,
        "...123456789012345678901234567890123456789012345678901234567890123456789012\n                                                                          ^\n",
    ),
    (
        LINE,
        30,
        31,
        "012345678901234567890123456789012345678901234567890123456789012345678901...\n                              ^\n",
    ),
    (
        LINE,
        36,
        37,
        "012345678901234567890123456789012345678901234567890123456789012345678901...\n                                    ^\n",
    ),
    (
        LINE,
        37,
        38,
        "...123456789012345678901234567890123456789012345678901234567890123456789012...\n                                       ^\n",
    ),
    (NAME, 0, 3, "名名名名名名名名名名名名名名名名名名名名名名名名名名名名名名名名名名名名...\n^^\n"),
    (
        "x名名名名名名名名名名名名名名名名名名名名名名名名名名名名名名名名名名名名名名名名",
        0,
        4,
        "x名名名名名名名名名名名名名名名名名名名名名名名名名名名名名名名名名名名...\n^^^\n",
    ),
    (
        NAME,
        120,
        120,
        "...名名名名名名名名名名名名名名名名名名名名名名名名名名名名名名名名名名名名\n                                                                           ^\n",
    ),
];

#[test]
fn shows_what_is_safe(rt: HostRuntime) {
    let mut out = Vec::new(rt.alloc());
    for (text, from, to, lines) in &SEEN {
        out.clear();
        let written = write_pointed(text, *from, *to, &mut out).is_ok();
        assert!(rt; written && out.as_slice() == lines.as_bytes(), "{lines}");
    }
}

#[test]
fn cuts_long_lines(rt: HostRuntime) {
    let mut out = Vec::new(rt.alloc());
    for (text, from, to, lines) in &CUT {
        out.clear();
        let written = write_pointed(text.as_bytes(), *from, *to, &mut out).is_ok();
        assert!(rt; written && out.as_slice() == lines.as_bytes(), "{lines}");
    }
}
