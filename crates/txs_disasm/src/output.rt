//! Bytes on their way to a writer.

ghost use Rattle.std.specs.Prelude.{◌≡◌, ◌+◌, ◌<◌, ◌≤◌, [], drop, is_ok, length, take, IfErr, IfOk, IsTrue, OnErr, OnOk};
ghost use Rattle.std.specs.Io.KnownBytes.{Appends, Keeps};
ghost use Rattle.txs_disasm.specs.Sent.{IsCut, Sent};
ghost use Rattle.txs_disasm.specs.declared.fault.WriteFault.TheVariants as fault;

use crate::fault::WriteFault;
use std::alloc::{AllocError, Global};
use std::io::{ErrorKind, Write};

/// So many interrupted writes are a fault.
const MOST_INTERRUPTED: u32 = 100_000_000;

/// From so many bytes on a page is written.
const LONG_PAGE: usize = 8_192;

/// Whole lines that are yet to be written, and how many more writes may be interrupted before that is a fault.
#[derive(Drop)]
pub(crate) struct Page {
    pub bytes: Vec<u8>,
    patience: u32,
}

/// One write. Answers how many bytes the writer took, of which none says that it was interrupted.
fn write_some<W: Write>(
    writer: &mut W,
    bytes: &[u8],
    patience: &mut u32,
) -> Result<usize, WriteFault>
    ensures within { IfOk result (λ n. n ≤ length bytes.now) }
    ensures further { IfOk result (λ n. patience.new < n + patience.old) }
    ensures taken { IfOk result (λ n. Appends (W.contents writer.old) (W.contents writer.new) (take n bytes.now)) }
    ensures kept { OnErr result (Keeps (W.contents writer.old) (W.contents writer.new)) }
    ensures fault { IfErr result (λ e. e ≡ fault.Write) }
{
    match writer.write(bytes) {
        Ok(0) => Err(WriteFault::Write),
        Ok(n) => Ok(n),
        Err(error) => {
            if error.kind() != ErrorKind::Interrupted || *patience <= 1 {
                return Err(WriteFault::Write);
            }
            *patience -= 1;
            Ok(0)
        }
    }
}

/// The bytes from a place on.
fn rest_at(bytes: &[u8], at: usize) -> &[u8]
    requires { at ≤ length bytes.now }
    ensures { result.now ≡ drop at bytes.now }
{
    &bytes[at..]
}

/// Writes all bytes, by as many writes as it takes.
fn write_whole<W: Write>(writer: &mut W, bytes: &[u8], patience: &mut u32) -> Result<(), WriteFault>
    ensures whole { OnOk result (Appends (W.contents writer.old) (W.contents writer.new) bytes.now) }
    ensures cut { OnErr result (IsCut (W.contents writer.old) (W.contents writer.new) bytes.now) }
    ensures fault { IfErr result (λ e. e ≡ fault.Write) }
{
    let mut rest = bytes;
    while !rest.is_empty() {
        let taken = write_some(writer, rest, patience)?;
        rest = rest_at(rest, taken);
    }
    Ok(())
}

/// Writes all bytes of a slice, in order and nothing else, by as many writes as it takes; where there are none, by none. The
/// writer isn't flushed.
///
/// # Errors
/// `Write` where a write fails, takes no byte, or is the 100,000,000th that is interrupted, and no other. Then the writer got a
/// beginning of the bytes, and not all.
pub fn write_all<W: Write>(writer: &mut W, bytes: &[u8]) -> Result<(), WriteFault>
    ensures whole { OnOk result (Appends (W.contents writer.old) (W.contents writer.new) bytes.now) }
    ensures cut { OnErr result (IsCut (W.contents writer.old) (W.contents writer.new) bytes.now) }
    ensures fault { IfErr result (λ e. e ≡ fault.Write) }
{
    let mut patience = MOST_INTERRUPTED;
    write_whole(writer, bytes, &mut patience)
}

impl Page {
    /// An empty page.
    pub(crate) fn new(alloc: Global) -> Page
        ensures { result.bytes.items ≡ [] }
    {
        Page {
            bytes: Vec::new(alloc),
            patience: MOST_INTERRUPTED,
        }
    }

    /// Writes what is on the page, and empties it.
    pub(crate) fn send<W: Write>(&mut self, writer: &mut W) -> Result<(), WriteFault>
        ensures whole { OnOk result (Appends (W.contents writer.old) (W.contents writer.new) self.old.bytes.items) }
        ensures empty { OnOk result (self.new.bytes.items ≡ []) }
        ensures cut { OnErr result (IsCut (W.contents writer.old) (W.contents writer.new) self.old.bytes.items) }
        ensures fault { IfErr result (λ e. e ≡ fault.Write) }
    {
        write_whole(writer, self.bytes.as_slice(), &mut self.patience)?;
        self.bytes.clear();
        Ok(())
    }

    /// Goes on behind a line that was put on the page, if there was memory for it: writes what is on the page, and empties it,
    /// once it is long.
    pub(crate) fn send_line<W: Write>(
        &mut self,
        put: Result<(), AllocError>,
        writer: &mut W,
    ) -> Result<(), WriteFault>
        ensures put { OnOk result (IsTrue (is_ok put)) }
        ensures sent { OnOk result (Sent (W.contents writer.old) (W.contents writer.new) self.old.bytes.items self.new.bytes.items) }
        ensures cut { OnErr result (OnOk put (IsCut (W.contents writer.old) (W.contents writer.new) self.old.bytes.items)) }
        ensures kept { OnErr put (W.contents writer.new ≡ W.contents writer.old) }
        // A line that there was memory for lacks nothing but a writer.
        ensures fault { OnOk put (IfErr result (λ e. e ≡ fault.Write)) }
        ensures memory { OnErr put (IfErr result (λ e. e ≡ fault.Memory)) }
    {
        put?;
        if self.bytes.len() < LONG_PAGE {
            return Ok(());
        }
        self.send(writer)
    }
}
