//! The program over any streams: `play` takes the words of the command line and a script, and writes what
//! a run, a check, a listing or a refusal says, or the text of help or of a usage fault. `play_with` is lent
//! how workers run, and how a report is audited. `play_by_workers` runs workers by `run_threads`, with a handle that is lent.
#![tactic(auto)]

mod form_stream;
mod lines;
pub mod program;
pub mod record;
pub mod run;
pub mod source;
mod task;
pub mod tell;
pub mod workers;

pub use program::{play, play_schedule, play_with, play_words};
pub use record::{Record, record_run};
pub use txs_audit_book::{AuditError, Terms, Verdict};
pub use txs_cli_args::{Exploring, Input, Request, RunOptions, parse_words};
pub use workers::{play_by_workers, record_by_workers};
