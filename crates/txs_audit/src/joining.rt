//! What workers found, put together.

ghost use Rattle.std.specs.Prelude.{◌≡◌, IfOk};
ghost use Rattle.txs_audit.specs.Parted.{sought_by};
ghost use Rattle.txs_audit.specs.Pieced.{IsFound, Sought, both};

use crate::judging::Judge;
use crate::parts::Part;
use std::thread::{PromisedHandle, Threads};
use txs_audit_book::{AuditError, Finding};
use txs_audit_evidence::transactions::Found;

/// What is found of some pieces and then of others.
pub(crate) fn both(first: Found, second: Found) -> Found
    ensures { (s t : Sought) → IsFound s first → IsFound t second → IsFound (both s t) result }
{
    Found {
        finding: first.finding.and_then(second.finding),
        serial: first.serial && second.serial,
    }
}

/// What the workers found, in their order, when all have returned.
pub(crate) fn joined<'s, R: Threads, J: Judge>(
    rt: &R,
    handles: Vec<PromisedHandle<Result<Found, AuditError>, Part<'s, J>>>,
) -> Result<Found, AuditError>
    ensures { IfOk result (IsFound (sought_by J.Judge handles.entry.items)) }
{
    let mut all = Found {
        finding: Finding::Fine,
        serial: true,
    };
    for handle in handles {
        let found = handle.join(rt)?;
        all = both(all, found);
    }
    Ok(all)
}
