//! Whether a report has its sizes, and whether its traces name the events of its books: each actor's its own, book by book in order,
//! and no others. And whether the events of all books have one order that fits its traces, read points and sends: each is taken once,
//! when all that came before it is taken.
#![tactic(auto)]

pub mod held;
pub mod kinds;
mod left;
mod links;
mod order;
pub mod places;
mod rows;
mod senders;
mod sizes;
mod taking;
mod trace_lists;
mod trace_rows;
mod traces;

pub use order::out_of_order;
pub use sizes::has_sizes;
pub use trace_lists::traces_off;
