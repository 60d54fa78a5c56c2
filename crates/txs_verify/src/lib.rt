//! The verifier of code, and code out of bytes: decoded, verified and sealed. Promises that the code is the one that the bytes are
//! the form of, and well typed; and that each refusal is true.
#![tactic(auto)]

pub mod alone;
pub mod bodies;
pub mod effect;
pub mod error;
pub mod law;
pub mod load;
pub mod load_error;
pub mod settled;
pub mod standing;
pub mod validators;
pub mod walk;

pub use bodies::{Rooms, verify, verify_code};
pub use error::{BodyName, VerifyError, VerifyErrorKind};
