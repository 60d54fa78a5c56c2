//! What a transaction does on one world of refs, but for applying callees: the parts of the evaluators of txs_tree_eval that need no
//! evaluation. Worlds as they are given, why an evaluation gives no value, and whether what an event names is what is meant.
#![tactic(auto)]

pub mod past;
pub mod same;
pub mod stop;
pub mod values;
pub mod view;
pub mod work;
pub mod writes;

pub use past::History;
pub use same::same_commit;
pub use stop::ThreadStop;
pub use values::{collect, operate, print_line};
pub use view::{RefView, TxView};
pub use work::{TxWork, take_cell};
pub use writes::{merge, put_write, value_in, valued};
