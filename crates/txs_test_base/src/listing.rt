// The listing of code, over writers that take a few bytes a call, or fail.
use crate::bytes::{FORM, VALIDATED};
use std::alloc::Global;
use std::io;
use std::io::{ErrorKind, Write};
use txs_code_encode::decode;
use txs_disasm::{WriteFault, write_listing};

// Takes at most so many bytes a call, and fails once it has no more room.
#[derive(Drop)]
struct Sink {
    got: Vec<u8>,
    most: usize,
    room: usize,
}

impl Write for Sink {
    fn write(&mut self, buf: &[u8]) -> io::Result<usize> {
        if self.room == 0 {
            return Err(io::Error::from(ErrorKind::BrokenPipe));
        }
        let taken = buf.len().min(self.most).min(self.room);
        self.got.extend_from_slice(&buf[..taken])?;
        self.room = self.room.saturating_sub(taken);
        Ok(taken)
    }

    fn flush(&mut self) -> io::Result<()> {
        Ok(())
    }
}

// Whether a writer that takes at most so many bytes a call, and has room for so many, gets as much of the listing of code in its byte form, and fails if that isn't all.
fn is_listed(alloc: Global, form: &[u8], most: usize, room: usize, listing: &str) -> bool {
    let Ok(code) = decode(alloc, form) else {
        return false;
    };
    let mut sink = Sink {
        got: Vec::new(alloc),
        most,
        room,
    };
    let end = if room < listing.len() {
        Err(WriteFault::Write)
    } else {
        Ok(())
    };
    let got = &listing.as_bytes()[..listing.len().min(room)];
    write_listing(alloc, &code, &mut sink) == end && sink.got.as_slice() == got
}

// The listing of `(future (println 7))`, as it is documented.
const PRINTS: &str = "const 0 7
thread 0 locals 0
  0 const 0 @17..18
  1 print 1 @8..19
  2 halt @0..20
";

// Two cells, of which one goes on after a fault, a vector and a cell as constants, a function of two parameters, and a thread.
const OTHER: &[u8] = b"TXS1\
    \x00\x02\x02\x01\x01g\x06\x00\x01\x04\x01k\x00\x00\x01r\x03\x00\x00\x00\x00\x00\x00\x00\x05\
    \x00\x00\x00\x02\x06\x00\x03\x03\xff\xff\xff\xff\xff\xff\xff\xff\x00\x06\x00\x00\x07\x00\x01\
    \x00\x01\x02\x02\x00\x00\x00\x03\
    \x01\x01\x00\x00\x00\x03\x00\x00\x00\x04\
    \x06\x00\x00\x02\x00\x00\x00\x00\x00\x00\x00\x05\
    \x08\x00\x00\x00\x00\x00\x00\x00\x06\
    \x00\x01\x00\x00\x00\x00\x00\x03\
    \x00\x00\x00\x00\x01\x00\x00\x00\x07\x00\x00\x00\x08\
    \x11\x01\x00\x00\x00\x01\x00\x00\x00\x06\x00\x00\x00\x0b\
    \x18\x00\x00\x00\x06\x00\x00\x00\x0c";

// Its listing.
const OTHER_LISTED: &str = "cell 0 agent g [:k] continue
cell 1 ref r 5
const 0 [-1 nil []]
const 1 #ref[1]
fn 0 params 2 locals 2
  0 local 1 @3..4
  1 core + 2 @0..5
  2 return @0..6
thread 0 locals 0
  0 const 1 @7..8
  1 commute_open fn 0 1 @6..11
  2 halt @6..12
";

// The listing of cells with validators.
const VALIDATED_LISTED: &str = "cell 0 ref r 1 validator core pos?
cell 1 atom a nil
cell 2 agent g nil continue validator fn 0
";

// A byte a call, or seven, or all; and where there is room for so many bytes.
#[test]
fn is_written_whole_or_begun(rt: HostRuntime) {
    for most in &[1, 7, 10_000] {
        assert!(rt;
            is_listed(rt.alloc(), FORM, *most, 10_000, PRINTS)
                && is_listed(rt.alloc(), OTHER, *most, 10_000, OTHER_LISTED)
                && is_listed(rt.alloc(), VALIDATED, *most, 10_000, VALIDATED_LISTED),
            "{most}"
        );
    }
    for room in 0..OTHER_LISTED.len() + 1 {
        assert!(rt;
            is_listed(rt.alloc(), OTHER, 3, room, OTHER_LISTED),
            "{room}"
        );
    }
}
