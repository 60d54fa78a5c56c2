// What is told where a stream fails, gives few bytes a call, or gives bytes that are no text, and of words that can't be
// used.
use crate::program::{says, write};
use std::alloc::Global;
use std::io;
use std::io::{ErrorKind, Read, Write};
use txs_cli::play_words;
use txs_cli_args::{Input, Request, RunOptions};

// Gives at most three bytes a call, and fails at the call of this number, counted from 0.
#[derive(Drop)]
struct Source<'a> {
    text: &'a [u8],
    calls: usize,
    bad: usize,
    kind: ErrorKind,
}

impl<'a> Read for Source<'a> {
    fn read(&mut self, buf: &mut [u8]) -> io::Result<usize> {
        let call = self.calls;
        self.calls = call.saturating_add(1);
        if self.bad == call {
            return Err(io::Error::from(self.kind));
        }
        let most = self.text.len().min(buf.len()).min(3);
        let (now, later) = self.text.split_at(most);
        buf[..most].copy_from_slice(now);
        self.text = later;
        Ok(most)
    }
}

// Takes at most three bytes a call, and fails at the call of this number, counted from 0.
#[derive(Drop)]
struct Sink {
    got: Vec<u8>,
    calls: usize,
    bad: usize,
}

impl Write for Sink {
    fn write(&mut self, buf: &[u8]) -> io::Result<usize> {
        let call = self.calls;
        self.calls = call.saturating_add(1);
        if self.bad == call {
            return Err(io::Error::from(ErrorKind::BrokenPipe));
        }
        let most = buf.len().min(3);
        self.got.extend_from_slice(&buf[..most])?;
        Ok(most)
    }

    fn flush(&mut self) -> io::Result<()> {
        Ok(())
    }
}

// The number of a call that never comes.
const NEVER: usize = 1_000_000;

// Whether a run of a script tells this, where its reader fails so at this call, and its writers at these.
fn tells(
    alloc: Global,
    text: &[u8],
    read: (usize, ErrorKind),
    written: (usize, usize),
    told: (&str, &str, u8),
) -> bool {
    let mut reader = Source {
        text,
        calls: 0,
        bad: read.0,
        kind: read.1,
    };
    let mut output = Sink {
        got: Vec::new(alloc),
        calls: 0,
        bad: written.0,
    };
    let mut errors = Sink {
        got: Vec::new(alloc),
        calls: 0,
        bad: written.1,
    };
    let request = Request::Schedule {
        input: Input {
            file: None,
            code: false,
            explain: false,
        },
        plays: String::new(alloc),
        options: RunOptions {
            steps: 100_000_000,
            cells: false,
            events: false,
            audit: false,
        },
    };
    let status = play_words(alloc, &request, &mut reader, &mut output, &mut errors);
    drop(request);
    status == told.2
        && output.got.as_slice() == told.0.as_bytes()
        && errors.got.as_slice() == told.1.as_bytes()
}

// A script of 26 bytes.
const ADDS: &[u8] = b"(future (println (+ 1 2)))";

#[test]
fn each_read_may_fail(rt: HostRuntime) {
    let alloc = rt.alloc();
    let failed = ("", "read failed\n", 2);
    for bad in 0..10 {
        let read = (bad, ErrorKind::BrokenPipe);
        assert!(rt; tells(alloc, ADDS, read, (NEVER, NEVER), failed), "{bad}");
    }
    let read = (2, ErrorKind::Interrupted);
    assert!(rt; tells(alloc, ADDS, read, (NEVER, NEVER), ("3\n", "", 0)));
    let read = (NEVER, ErrorKind::BrokenPipe);
    assert!(rt; tells(alloc, ADDS, read, (NEVER, NEVER), ("3\n", "", 0)));
}

// The first of these calls that doesn't fail with this text written before it, or `NEVER`.
fn first_other(alloc: Global, script: &[u8], rows: &[(usize, &str)]) -> usize {
    let read = (NEVER, ErrorKind::BrokenPipe);
    for (bad, text) in rows {
        let told = (*text, "write failed\n", 2);
        if !tells(alloc, script, read, (*bad, NEVER), told) {
            return *bad;
        }
    }
    NEVER
}

#[test]
fn each_write_may_fail(rt: HostRuntime) {
    let script = b"(future (println 1234567890))".as_slice();
    let rows = [(0, ""), (1, "123"), (2, "123456"), (3, "123456789")];
    let bad = first_other(rt.alloc(), script, &rows);
    assert!(rt; bad == NEVER, "{bad}");
    let read = (NEVER, ErrorKind::BrokenPipe);
    assert!(rt; tells(rt.alloc(), b"(", read, (NEVER, 1), ("", "ref", 2)));
}

// Words, one list a line; the first is empty.
const UNUSABLE: &str = "
--walk
run --steps 0
run --steps 1000000000001
run --workers 0
run --workers 65
schedule --workers 2
run a b
dis --code --explain
check --code";

// Whether these words can't be used: nothing but a text on standard error.
fn are_unusable(alloc: Global, words: &str) -> bool {
    let mut out = Vec::new(alloc);
    let mut err = Vec::new(alloc);
    let status = write(alloc, words, b"(future (println 1))", &mut out, &mut err);
    status == 2 && out.is_empty() && !err.is_empty()
}

// A byte that is no text is shown by its value.
const EXPLAINED: &[u8] =
    b"refused 1 NotUtf8 at 8..9\n-:1:9: Save the script as UTF-8: no valid character begins here.\n(future \\xff)\n        ^^^^\n";

#[test]
fn words_that_cannot_be_used_and_bytes_that_are_explained(rt: HostRuntime) {
    let alloc = rt.alloc();
    for words in UNUSABLE.lines() {
        assert!(rt; are_unusable(alloc, words), "{words}");
    }
    assert!(rt;
        says(
            alloc,
            "check --explain",
            b"(future \xff)",
            b"",
            EXPLAINED,
            1
        )
    );
}
