//! One history of all asks of a run by workers, which exists in contracts and proofs alone.
//!
//! A *history* is a list: how many locks there are, and then events, each with the number of its lock. Nobody keeps it. Behind
//! each lock is a [`Log`], which alone adds events under the lock's number. Whoever asks has a [`Past`]: how much of
//! the history it has seen. Both name a beginning of the same list. So what is known of two of them fits together,
//! without a comparison. At run time there is one word for each lock, the number of its events.
//!
//! [`Log::push`] adds just one event, the one that is lent, behind all that the log and the past have seen. [`Log::is_whole`] is
//! true only where the history has no other event under the lock, as far as a past has seen it. [`LoggedStore`] and
//! [`LoggedAtom`] answer each ask as the history before it says, and add it behind all that its actor has seen.
//! `history_is_run` says that such a history is a run by turns.
#![tactic(auto)]

mod asked;
mod atom;
mod law;
mod log;
mod run;
mod serve;
mod store;

pub use asked::Asked;
pub use atom::LoggedAtom;
pub use law::history_is_run;
pub use log::{Entry, Log, Naming, Opened, Past, StandsFor};
pub use run::Run;
pub use serve::Served;
pub use store::LoggedStore;
