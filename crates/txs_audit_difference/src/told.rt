//! What differs and where, and what tests tell so far.

use txs_audit_event::What;
use txs_value_data::Span;

/// What differs, and where an audit names it: an event of an actor's trace, or what comes behind all of its events.
#[derive(Drop)]
pub struct Difference {
    pub actor: u16,
    /// The index in the actor's trace.
    pub event: usize,
    /// Of an agent's actor the `send` of the action that it is in, where it is in one.
    pub action: Option<Span>,
    pub what: What,
}

/// What tests tell.
#[derive(Drop)]
pub(crate) enum Told {
    /// Nothing differs.
    Clear,
    /// Some loop needs more turns.
    Open,
    /// This differs.
    So(Difference),
}
