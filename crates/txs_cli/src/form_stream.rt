//! The bytes of code, read from a stream as far as they may be the beginning of a byte form.

ghost use Rattle.std.specs.Io.KnownBytes.{Consumes, IsAtEnd, Keeps};
ghost use Rattle.std.specs.Prelude.{◌≡◌, ◌<◌, ◌≤◌, ◌++◌, ◌⊎◌, ℕ, List, length, take, true, false, IfErr, IfOk, OnErr, OnOk};
ghost use Rattle.txs_cli.specs.CodeStream.{IsNoFurther, IsRead, goal_after};
ghost use Rattle.txs_verify.specs.Load.{is_settled};

use std::alloc::{AllocError, Global};
use std::io::{Error, ErrorKind, Read};
use txs_cli_report::streams::ReadFault;
use txs_verify::settled::is_settled;

/// So many interrupted reads are a fault.
const MOST_INTERRUPTED: u32 = 100_000_000;

/// How many bytes one read gives at most.
const PIECE: usize = 8_192;

/// How many bytes are read at least behind those of the magic, if the stream has them.
const LONG: usize = 65_536;

/// What is known of a reader: whether a read of it failed, and how many more may be interrupted before that is a fault.
#[derive(Drop)]
pub(crate) struct Asked {
    failed: bool,
    patience: u32,
}

/// Of a reader that wasn't asked yet.
fn not_yet() -> Asked
    ensures { result.failed ≡ false }
{
    Asked {
        failed: false,
        patience: MOST_INTERRUPTED,
    }
}

/// The fault that an error of a reader is.
fn fault_of(error: &Error) -> ReadFault {
    match error.kind() {
        ErrorKind::OutOfMemory => ReadFault::Memory,
        _ => ReadFault::Failed,
    }
}

/// One read, made again where it was interrupted. A reader that failed is asked no more: it gave nothing since.
fn read_piece<R: Read>(
    reader: &mut R,
    piece: &mut [u8],
    asked: &mut Asked,
) -> Result<usize, ReadFault>
    requires going { asked.old.failed ≡ false }
    requires some { 0 < length piece.old }
    ensures within { IfOk result (λ n. n ≤ length piece.new) }
    ensures read { IfOk result (λ n. Consumes (R.remaining reader.old) (R.remaining reader.new) (take n piece.new)) }
    ensures end { IfOk result (λ n. n ≡ 0 → IsAtEnd (R.remaining reader.new)) }
    ensures going { OnOk result (asked.new.failed ≡ false) }
    ensures failed { OnErr result (asked.new.failed ≡ true) }
    ensures kept { OnErr result (Keeps (R.remaining reader.old) (R.remaining reader.new)) }
{
    while asked.patience > 0 {
        match reader.read(piece) {
            Ok(n) => return Ok(n),
            Err(error) => {
                if error.kind() != ErrorKind::Interrupted {
                    asked.failed = true;
                    return Err(fault_of(&error));
                }
                asked.patience -= 1;
            }
        }
    }
    asked.failed = true;
    Err(ReadFault::Failed)
}

/// The first bytes of a piece.
fn front(piece: &[u8], count: usize) -> &[u8]
    requires { count ≤ length piece.now }
    ensures { result.now ≡ take count piece.now }
{
    &piece[..count]
}

/// Appends what one read gives, which is at most so many bytes. Answers whether the stream has ended.
fn append_piece<R: Read>(
    reader: &mut R,
    bytes: &mut Vec<u8>,
    most: usize,
    asked: &mut Asked,
) -> Result<bool, ReadFault>
    requires going { asked.old.failed ≡ false }
    requires some { 0 < most }
    ensures read { OnOk result ((got : List ℕ) × (bytes.new.items ≡ bytes.old.items ++ got) × (length got ≤ most) × Consumes (R.remaining reader.old) (R.remaining reader.new) got) }
    ensures end { IfOk result (λ ended. ended ≡ true → IsAtEnd (R.remaining reader.new)) }
    ensures more { IfOk result (λ ended. ended ≡ false → length bytes.old.items < length bytes.new.items) }
    ensures going { OnOk result (asked.new.failed ≡ false) }
{
    let mut piece = [0; PIECE];
    let part = &mut piece[..most.min(PIECE)];
    let count = read_piece(reader, part, asked)?;
    if count == 0 {
        return Ok(true);
    }
    match bytes.extend_from_slice(front(part, count)) {
        Ok(()) => Ok(false),
        Err(_) => Err(ReadFault::Memory),
    }
}

/// Reads up to so many bytes in all. Answers whether the stream has ended.
fn fill<R: Read>(
    reader: &mut R,
    bytes: &mut Vec<u8>,
    goal: usize,
    asked: &mut Asked,
) -> Result<bool, ReadFault>
    requires going { asked.old.failed ≡ false }
    requires fewer { length bytes.old.items ≤ goal }
    ensures read { OnOk result ((got : List ℕ) × (bytes.new.items ≡ bytes.old.items ++ got) × Consumes (R.remaining reader.old) (R.remaining reader.new) got) }
    ensures few { OnOk result (length bytes.new.items ≤ goal) }
    ensures end { IfOk result (λ ended. ended ≡ true → IsAtEnd (R.remaining reader.new)) }
    ensures full { IfOk result (λ ended. ended ≡ false → length bytes.new.items ≡ goal) }
    ensures going { OnOk result (asked.new.failed ≡ false) }
{
    while bytes.len() < goal {
        let most = goal - bytes.len();
        if append_piece(reader, bytes, most, asked)? {
            return Ok(true);
        }
    }
    Ok(false)
}

/// Up to how many bytes is read, where so many may be the beginning of a form.
fn goal_after(count: usize) -> usize
    requires { count < 9223372036854775808 }
    ensures value { result ≡ goal_after count }
    ensures more { count < result }
{
    if count == 0 {
        return 4;
    }
    count + count.max(LONG)
}

/// Reads on behind bytes that may be the beginning of a form. Answers whether those that are read then may be, and more stand behind them.
fn read_further<R: Read>(
    alloc: Global,
    reader: &mut R,
    bytes: &mut Vec<u8>,
    asked: &mut Asked,
) -> Result<bool, ReadFault>
    requires going { asked.old.failed ≡ false }
    requires yet { is_settled bytes.old.items ≡ false }
    ensures read { OnOk result ((got : List ℕ) × (bytes.new.items ≡ bytes.old.items ++ got) × Consumes (R.remaining reader.old) (R.remaining reader.new) got) }
    ensures further { OnOk result (IsNoFurther bytes.new.items) }
    ensures enough { IfOk result (λ more. more ≡ false → IsAtEnd (R.remaining reader.new) ⊎ (is_settled bytes.new.items ≡ true)) }
    ensures yet { IfOk result (λ more. more ≡ true → is_settled bytes.new.items ≡ false) }
    ensures longer { IfOk result (λ more. more ≡ true → length bytes.old.items < length bytes.new.items) }
    ensures going { OnOk result (asked.new.failed ≡ false) }
{
    let goal = goal_after(bytes.len());
    if fill(reader, bytes, goal, asked)? {
        return Ok(false);
    }
    match is_settled(alloc, bytes.as_slice()) {
        Ok(settled) => Ok(!settled),
        Err(_) => Err(ReadFault::Memory),
    }
}

/// The bytes of a stream that has the byte form of code: all, or as many as it takes to see that no form begins so. Of a wrong magic these
/// are four.
///
/// # Errors
/// `Failed` where a call of the reader fails, but for one that was interrupted, of which the 100,000,000th is a fault too; `Memory` where the bytes
/// don't fit into memory, or the code that they begin.
pub(crate) fn read_form<R: Read>(alloc: Global, reader: &mut R) -> Result<Vec<u8>, ReadFault>
    ensures read { IfOk result (λ bytes. IsRead (R.remaining reader.old) (R.remaining reader.new) bytes.items) }
    ensures further { IfOk result (λ bytes. IsNoFurther bytes.items) }
{
    let mut bytes = Vec::new(alloc);
    let mut asked = not_yet();
    let mut going = true;
    while going {
        going = read_further(alloc, reader, &mut bytes, &mut asked)?;
    }
    Ok(bytes)
}
