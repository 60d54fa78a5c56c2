//! A report's books gone through, and what an audit finds of its pieces by them: each thread, each action of an agent, and the
//! end of each agent. `open_books` finds what the books of the store and of atoms give an audit, and where that is nothing, gives
//! them to look up. `ends_off` answers exactly what an audit finds of how actors ended, and `thread_found`, `act_found` and `agent_end` what it finds of
//! a piece.
#![tactic(auto)]

pub mod acts;
pub mod books;
pub mod ends;
pub mod opening;
pub mod seeing;
pub mod threads;
pub mod transactions;

pub use books::Books;
pub use ends::ends_off;
pub use opening::open_books;
