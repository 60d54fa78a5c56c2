//! The answer of an audit, by what it has found.

ghost use Rattle.std.specs.Prelude.{◌≡◌};
ghost use Rattle.txs_theorem_audit.specs.Audited.{answer};
ghost use Rattle.txs_audit_book.specs.Answered.{as_verdict};
ghost use Rattle.txs_audit_book.specs.Judged.{as_found};

use txs_audit_book::{Finding, Verdict};
use txs_audit_evidence::transactions::Found;

/// The answer of an audit that has found this.
pub(crate) fn verdict_of(found: Found) -> Verdict
    ensures { as_verdict result ≡ answer (as_found found.finding) found.serial }
{
    match found.finding {
        Finding::Fine => Verdict::Agrees {
            serial: found.serial,
        },
        Finding::Off(actor, event) => Verdict::Differs { actor, event },
        Finding::Short(actor, event) => Verdict::Undecided { actor, event },
    }
}
