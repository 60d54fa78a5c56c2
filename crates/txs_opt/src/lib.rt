//! Folding and inlining: programs made shorter, which mean the same. `fold` puts values in the place of parts whose value is
//! known, `inline` puts small functions in the place of their calls, and `optimised_copy` folds, inlines and folds. The laws say
//! that pure code, transactions and threads mean what they meant.
#![tactic(auto)]

mod call;
mod find_calls;
mod fold_nodes;
pub mod fold_program;
mod inline_nodes;
pub mod inline_program;
pub mod law;
mod locals;
pub mod optimise;
mod tail;

pub use fold_program::fold;
pub use inline_program::inline;
pub use optimise::optimised_copy;
