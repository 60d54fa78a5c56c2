//! What an actor keeps of its transaction and of its unanswered ask, what it asks the shared state, and what the instructions on
//! cells and on transactions make of it: each does to the stack, to the transaction and to its frame what its effect says, or
//! says what has to be asked, or which fault it is. A transaction that runs is overwritten in its place: no stack is moved, and
//! none is made anew.
#![tactic(auto)]

pub mod asks;
pub mod instructions;
pub mod kept;
pub mod moved;
pub mod role;
pub mod state;

pub use asks::{ask_for, ask_of_commit, ask_of_read, copy_sends, join_sends};
pub use instructions::{replace_over, runs, shut, transact, transact_rarely};
pub use kept::{Ending, KeptPending, KeptTransaction, Standing, Wanted};
pub use moved::{Moved, Quick};
pub use role::{InHand, Role};
pub use state::{Pending, Savepoint, Transaction};
