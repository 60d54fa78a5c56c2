//! What to do about a line on the standard error, in a sentence: one for each kind of refusal, fault and stop; and for a refusal or a
//! fault, where that is known, one about what is at its span: a name of clojure.core, a name that is near to a known one, a form of
//! another shape, a bracket that is open, a wrong count of arguments, a value of another kind. For a value that a validator refused:
//! which cells may be meant. Each of these is one line that is safe to show, or there is none.
#![tactic(auto)]

pub mod checked;
mod found;
pub mod kinds;
mod named;
mod shaped;
pub mod states;
pub mod top;
mod validated;

pub use checked::on_check;
pub use kinds::{
    OF_JOURNAL, OF_LIST, OF_MEMORY, OF_STEPS, of_check, of_fault, of_read, of_resolve,
};
pub use states::on_fault;
pub use top::on_resolve;
pub use txs_cli_advice_script::on_read;
