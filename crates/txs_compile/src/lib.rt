//! The compiler of scripts: from bytes to a program and to code that follows it. The forms are read, names
//! resolve, the program is checked, and code is generated; the first layer that refuses gives the refusal,
//! and it is the script's first in source order.
//!
//! Its laws are functions of their own, which do nothing when they run: code of an optimised program follows the program
//! from before, its threads and the actions of its agents; and the code of a script has a byte form.
#![tactic(auto)]

pub mod byte_form;
pub mod compile_error;
mod optimised_code;
mod script;

pub use compile_error::CompileError;
pub use optimised_code::{
    code_behaves_as_before, optimised_code_follows, optimised_code_follows_agents,
    optimised_is_sound, optimised_means_same,
};
pub use script::compile;
