//! Streams: a script is read to its end, or to one byte past what a script may have, in a bounded number of
//! calls; answers are written whole.

ghost use Rattle.std.specs.Prelude.{◌≡◌, IfOk, OnErr, OnOk, IfSome};
ghost use Rattle.std.specs.Io.KnownBytes.{Appends};
ghost use Rattle.txs_cli_report.specs.Told.{IsBegun, front};

use std::alloc::Global;
use std::io;
use std::io::{ErrorKind, Read, Write};
use thiserror::Error;
use txs_disasm::write_all;
use txs_value_data::limits::MOST_SCRIPT;

/// How many bytes are read at most: one more than a script may have.
const MAX_BYTES: u64 = MOST_SCRIPT as u64 + 1;

/// Why the bytes of a stream aren't there.
#[derive(Clone, Copy, Debug, Error)]
pub enum ReadFault {
    /// The stream couldn't be read.
    #[error("read failed")]
    Failed,
    /// There was no memory for the bytes.
    #[error("out of memory")]
    Memory,
}

/// How many times a reader is called at most.
const MOST_CALLS: u32 = 100_000_000;

/// A reader that is called 100,000,000 times at most, also where each call is interrupted, and fails from then on.
#[derive(Drop)]
pub struct Patient<R> {
    inner: R,
    calls: u32,
}

impl<R> Patient<R> {
    /// A reader that hasn't been called yet.
    pub fn new(inner: R) -> Patient<R>
        ensures inner { result.inner ≡ inner }
    {
        Patient {
            inner,
            calls: MOST_CALLS,
        }
    }
}

impl<R: Read> Read for Patient<R> {
    ghost remaining = { λ p. R.remaining p.inner };

    fn read(&mut self, buf: &mut [u8]) -> io::Result<usize> {
        if self.calls == 0 {
            return Err(io::Error::from(ErrorKind::TimedOut));
        }
        self.calls -= 1;
        self.inner.read(buf)
    }
}

/// The bytes of a stream up to its end, and no more than one past those that a script may have: all that the
/// reader gives, in order, where it tells what it will give.
///
/// # Errors
/// `Failed` where a call of the reader fails, but for one that was interrupted, or where 100,000,000 calls don't
/// suffice; `Memory` where the bytes don't fit into memory.
pub fn read_bytes<R: Read>(alloc: Global, reader: &mut R) -> Result<Vec<u8>, ReadFault>
    ensures { IfOk result (λ bytes. IfSome (R.remaining reader.old) (λ input. bytes.items ≡ front input)) }
{
    let mut bytes = Vec::new(alloc);
    let front = reader.take(MAX_BYTES);
    match Patient::new(front).read_to_end(&mut bytes) {
        Ok(_) => Ok(bytes),
        Err(e) if e.kind() == ErrorKind::OutOfMemory => Err(ReadFault::Memory),
        Err(_) => Err(ReadFault::Failed),
    }
}

/// A stream that couldn't be written. Only a write that failed makes one.
#[derive(Clone, Copy, Debug, Error)]
#[error("write failed")]
pub struct WriteFault(());

/// Writes all bytes, in order and nothing else. The writer isn't flushed.
///
/// # Errors
/// As those of `write_bytes`.
pub(crate) fn write_piece<W: Write>(writer: &mut W, bytes: &[u8]) -> Result<(), WriteFault>
    ensures whole { OnOk result (Appends (W.contents writer.old) (W.contents writer.new) bytes.now) }
    ensures begun { OnErr result (IsBegun (W.contents writer.old) (W.contents writer.new) bytes.now) }
{
    match write_all(writer, bytes) {
        Ok(()) => Ok(()),
        Err(_) => Err(WriteFault(())),
    }
}

/// Writes all bytes, in order and nothing else, and flushes the writer.
///
/// # Errors
/// Where a call of the writer fails or takes no byte, but for one that was interrupted, of which the 100,000,000th is a fault too.
/// Then the writer got a beginning of the bytes, which is all of them where it was the flush that failed.
pub fn write_bytes<W: Write>(writer: &mut W, bytes: &[u8]) -> Result<(), WriteFault>
    ensures whole { OnOk result (Appends (W.contents writer.old) (W.contents writer.new) bytes.now) }
    ensures begun { OnErr result (IsBegun (W.contents writer.old) (W.contents writer.new) bytes.now) }
{
    write_piece(writer, bytes)?;
    match writer.flush() {
        Ok(()) => Ok(()),
        Err(_) => Err(WriteFault(())),
    }
}
