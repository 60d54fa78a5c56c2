//! What to do about a fault, by what is at its span in the script.

ghost use Rattle.std.specs.Prelude.{◌≡◌, ◌<◌, None, false, length, string_bytes, IfOk, IfSome};
ghost use Rattle.txs_reader.specs.Safe.{Safe};
ghost use Rattle.txs_cli_advice.specs.Seen.{fault_seen};

use crate::found::{Wrong, on_wrong};
use crate::validated::on_refused;
use std::alloc::{AllocError, Global};
use txs_value_data::{Fault, FaultKind};

/// The most bytes of a script that is read again for a fault: a run may have as many faults as it has threads and agents.
const MOST_READ: usize = 65_536;

/// What to do about a fault, as far as that is seen at its span: of a value that was refused, the cells that may be meant, with
/// their validators; of a value of another kind, what it is and what is taken there. Of a script of more than 65,536 bytes nothing
/// is said here, and of more than 16,384 bytes nothing about a name.
///
/// # Errors
/// Where there was no memory for the sentence, or for the forms of the script.
pub fn on_fault(alloc: Global, text: &[u8], fault: Fault) -> Result<Option<String>, AllocError>
    ensures safe { IfOk result (λ shown. IfSome shown (λ text. Safe (string_bytes text))) }
    ensures long { 65536 < length text.now → result ≡ Ok None }
    ensures quiet { fault_seen fault.kind ≡ false → result ≡ Ok None }
{
    if text.len() > MOST_READ {
        return Ok(None);
    }
    match fault.kind {
        FaultKind::InvalidState => on_refused(alloc, text, fault.span),
        FaultKind::NotANumber => on_wrong(alloc, text, fault.span, Wrong::Number),
        FaultKind::NotAVector => on_wrong(alloc, text, fault.span, Wrong::Vector),
        FaultKind::NotACell => on_wrong(alloc, text, fault.span, Wrong::Cell),
        FaultKind::NotARef | FaultKind::NotAnAtom | FaultKind::NotAnAgent => {
            on_wrong(alloc, text, fault.span, Wrong::Changed)
        }
        FaultKind::OutsideOnly => on_wrong(alloc, text, fault.span, Wrong::Inside),
        FaultKind::Overflow
        | FaultKind::DivideByZero
        | FaultKind::IndexOut
        | FaultKind::PopEmpty
        | FaultKind::SetAfterCommute
        | FaultKind::RetryLimit
        | FaultKind::AgentFailed
        | FaultKind::TooDeep
        | FaultKind::TooLong => Ok(None),
    }
}
