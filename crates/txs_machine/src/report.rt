//! A report that needs no state.

ghost use Rattle.std.specs.Prelude.{◌≡◌, ◌≤◌, length, IfOk};
ghost use Rattle.txs_machine.specs.Reported.{IsReportOf};

use crate::schedule::Entries;
use std::alloc::{AllocError, Global};
use txs_world_protocol::Report;
use txs_world_shared::SharedState;

impl Entries {
    /// The report that has these entries, over the state behind the run, whose books it takes.
    ///
    /// # Errors
    /// `AllocError` where there was no memory for values, faults, or the list of the atoms' books.
    pub fn into_report(self, alloc: Global, shared: SharedState) -> Result<Report, AllocError>
        requires few { length shared.cells ≤ 65535 }
        ensures threads { IfOk result (λ report. report.threads ≡ self.threads) }
        ensures agents { IfOk result (λ report. report.agents ≡ self.agents) }
        ensures report { IfOk result (λ report. IsReportOf shared report) }
    {
        let cells = shared.values(alloc)?;
        let failed = shared.failures(alloc)?;
        let (book, atom_books) = shared.into_books(alloc)?;
        let (threads, agents) = self.into_parts();
        Ok(Report {
            threads,
            agents,
            book,
            atom_books,
            cells,
            failed,
        })
    }
}
