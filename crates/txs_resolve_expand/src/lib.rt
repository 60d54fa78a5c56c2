//! What names stand for, and what forms are. A `Scope` has the names in scope. `Scope::lookup` answers what a name stands for: a
//! form, else the nearest enclosing local, else the function that is being defined or an earlier definition, else a core
//! operation. `Scope::definition` answers what a name is defined as, by one look-up in a map.
//!
//! Each form, expanded as far as it stands for others, is one without parts or a special form with its parts in source order
//! (`core_at`), or it is refused. No expansion takes memory: what it makes of written forms is a `Part`, which holds them by
//! reference.
#![tactic(auto)]

mod error;
pub mod law;
pub mod names;
mod namespace;
mod parts;
mod plans;
pub mod scope;
mod shapes;

pub use error::{ResolveError, ResolveErrorKind, refusal};
pub use names::{FormName, form_of, may_bind, operation_of};
pub use namespace::behind_namespace;
pub use parts::{Core, Part, Special, Whole, form_at};
pub use plans::core_at;
pub use scope::{Definition, Found, Scope};
pub use shapes::{Change, Couple, Sequence, Single, Spot, callee, is_symbol};
