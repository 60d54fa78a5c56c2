//! What differs between a report and its program's text, once an audit has said that something does. `difference` names it.
#![tactic(auto)]

mod books;
pub mod law;
mod pieces;
mod telling;
mod told;
mod walking;

pub use telling::difference;
pub use told::Difference;
pub use txs_audit_event::What;
