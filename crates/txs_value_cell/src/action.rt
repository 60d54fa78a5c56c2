//! Actions: what `send` puts into an agent's mailbox.

ghost use Rattle.std.specs.Prelude.{◌≡◌, IfOk};

use crate::arguments::Arguments;
use std::alloc::AllocError;
use txs_value_data::{Callee, CellId, Span};

/// An action that waits for its agent: what is called on the agent's state and these further arguments, and where the `send`
/// is in the script.
pub struct Action {
    pub agent: CellId,
    pub callee: Callee,
    pub args: Arguments,
    pub span: Span,
}

// Dropped by a call that is proved here, so that no crate above proves it again.
impl Drop for Action {
    fn drop(self) {
        let Action {
            agent: _,
            callee: _,
            args,
            span: _,
        } = self;
        drop(args);
    }
}

/// The same action, which shares its arguments. An error where a count of owners is full.
pub fn copy_action(action: &Action) -> Result<Action, AllocError>
    ensures { IfOk result (λ c. c ≡ action.now) }
{
    Ok(Action {
        agent: action.agent,
        callee: action.callee,
        args: action.args.share()?,
        span: action.span,
    })
}
