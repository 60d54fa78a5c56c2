// Code in its byte form: built, listed, run and refused. What `build` tells of a script that is refused stands in `tests/rows`
// (`code.rows`).
use crate::program::{says, write};
use std::alloc::Global;
use std::io::{self, Read};
use txs_cli::play_words;
use txs_cli_args::{Input, Request};

/// The bytes of the code of `(future (println 7))`: the magic, no cells, one constant, no functions, and a thread of three instructions.
const SEVEN: [u8; 62] = [
    0x54, 0x58, 0x53, 0x31, 0, 0, 0, 0, 0, 1, 3, 0, 0, 0, 0, 0, 0, 0, 7, 0, 0, 0, 1, 0, 0, 0, 0, 0,
    3, 0, 0, 0, 0, 0, 0, 0, 0, 17, 0, 0, 0, 18, 10, 0, 1, 0, 0, 0, 8, 0, 0, 0, 19, 24, 0, 0, 0, 0,
    0, 0, 0, 20,
];

/// The listing of the code of `(future (println 7))`.
const LISTED: &[u8] = b"const 0 7
thread 0 locals 0
  0 const 0 @17..18
  1 print 1 @8..19
  2 halt @0..20
";

/// Well-typed code that faults: a `send` to a constant of 7.
const SENDS: &[u8] =
    b"TXS1\x00\x00\x00\x00\x00\x01\x03\x00\x00\x00\x00\x00\x00\x00\x07\x00\x00\x00\x01\
    \x00\x00\x00\x00\x00\x03\
    \x00\x00\x00\x00\x00\x00\x00\x00\x00\x00\x00\x00\x00\
    \x17\x00\x00\x03\x00\x00\x00\x00\x00\x00\x00\x00\x00\x00\
    \x18\x00\x00\x00\x00\x00\x00\x00\x00";

/// Its listing.
const SENDS_LISTED: &[u8] = b"const 0 7
thread 0 locals 0
  0 const 0 @0..0
  1 send core inc 0 @0..0
  2 halt @0..0
";

/// Its fault.
const NO_AGENT: &[u8] = b"thread 0 failed: NotAnAgent at 0..0\n";

#[test]
fn is_built_listed_and_run(rt: HostRuntime) {
    let alloc = rt.alloc();
    let script = b"(future (println 7))".as_slice();
    assert!(rt; says(alloc, "build --out code", script, &SEVEN, b"", 0));
    assert!(rt; says(alloc, "dis --code", &SEVEN, LISTED, b"", 0));
    assert!(rt; says(alloc, "schedule --code", &SEVEN, b"7\n", b"", 0));
    assert!(rt; says(alloc, "dis --code", SENDS, SENDS_LISTED, b"", 0));
    assert!(rt; says(alloc, "schedule --code", SENDS, b"", NO_AGENT, 3));
}

/// Places, a byte there, and the line that it brings about.
const CHANGES: [(usize, u8, &str); 5] = [
    (0, 0, "refused 31 BadMagic at 0\n"),
    (33, 1, "refused 34 BadOperand at 30\n"),
    (29, 5, "refused 42 StackLow in thread 0 at 0\n"),
    (44, 0, "refused 43 StackDiffers in thread 0 at 2\n"),
    (53, 8, "refused 48 FallsOff in thread 0 at 2\n"),
];

/// The first of these lines that another byte at its place doesn't bring about, or nothing.
fn first_other(alloc: Global, rows: &[(usize, u8, &'static str)]) -> &'static str {
    for (at, byte, line) in rows {
        let mut form = SEVEN;
        if let Some(place) = form.get_mut(*at) {
            *place = *byte;
        }
        if !says(alloc, "dis --code", &form, b"", line.as_bytes(), 1) {
            return line;
        }
    }
    ""
}

/// How many of the first bytes aren't refused, at the least: all of them.
fn first_taken(alloc: Global) -> usize {
    let mut output = Vec::new(alloc);
    let mut errors = Vec::new(alloc);
    for count in 0..62 {
        let cut = SEVEN.get(..count).unwrap_or(&[]);
        if write(alloc, "dis --code", cut, &mut output, &mut errors) != 1 {
            return count;
        }
    }
    62
}

#[test]
fn is_refused(rt: HostRuntime) {
    let line = first_other(rt.alloc(), &CHANGES);
    assert!(rt; line.is_empty(), "{line}");
    let count = first_taken(rt.alloc());
    assert!(rt; count == 62, "{count}");
}

/// What stands behind the first bytes of a stream, again and again.
const ZEROS: &[u8] = b"\0\0\0\0\0\0\0\0";

/// Gives these bytes and then zeros, without an end, and counts them.
#[derive(Drop)]
struct Endless<'a> {
    text: &'a [u8],
    given: usize,
}

impl<'a> Read for Endless<'a> {
    fn read(&mut self, buf: &mut [u8]) -> io::Result<usize> {
        if self.text.is_empty() {
            self.text = ZEROS;
        }
        let most = self.text.len().min(buf.len());
        let (now, later) = self.text.split_at(most);
        buf[..most].copy_from_slice(now);
        self.text = later;
        self.given = self.given.saturating_add(most);
        Ok(most)
    }
}

/// Whether such a stream is refused by this line, and no more than so many bytes of it are read.
fn is_read(alloc: Global, text: &[u8], line: &str, given: usize) -> bool {
    let mut reader = Endless { text, given: 0 };
    let mut output = Vec::new(alloc);
    let mut errors = Vec::new(alloc);
    let input = Input {
        file: None,
        code: true,
        explain: false,
    };
    let request = Request::List { input };
    let status = play_words(alloc, &request, &mut reader, &mut output, &mut errors);
    drop(request);
    status == 1 && errors.as_slice() == line.as_bytes() && reader.given == given
}

#[test]
fn is_read_no_further(rt: HostRuntime) {
    let alloc = rt.alloc();
    assert!(rt; is_read(alloc, b"", "refused 31 BadMagic at 0\n", 4));
    assert!(rt; is_read(alloc, &SEVEN, "refused 35 Trailing at 62\n", 65_540));
}
