//! What an audit finds of threads and actions, by what the evaluators answer. Nothing in this crate runs.

ghost use Rattle.txs_theorem_audit.specs.Evaluated.{ActBy, ActionNotedBy, CalmBy, CoveredBy, EndBy, FullBy, LeastBy, NotedBy, RestFullBy, StillBy};

/// What is found of a thread's transactions is found by what is answered of them.
pub fn calm_is_answered()
    ensures { CalmBy }
{}

/// So is whether they are covered.
pub fn covered_is_answered()
    ensures { CoveredBy }
{}

/// The transactions that are answered are those that an audit looks at.
pub fn noted_are_answered()
    ensures { NotedBy }
{}

/// The end of a thread is found by what is answered of it.
pub fn end_is_answered()
    ensures { EndBy }
{}

/// So is that of a thread which was stopped for a full book.
pub fn full_is_answered()
    ensures { FullBy }
{}

/// So is what it printed at least.
pub fn least_is_answered()
    ensures { LeastBy }
{}

/// The end of an action that is over is found by what is answered of it, and of its agent's validator.
pub fn act_is_answered()
    ensures { ActBy }
{}

/// So is that of an action that isn't over.
pub fn still_is_answered()
    ensures { StillBy }
{}

/// So is that of one whose agent's actor was stopped for a full book.
pub fn rest_full_is_answered()
    ensures { RestFullBy }
{}

/// The transactions of an action are those that an audit looks at, and what it prints is what is answered.
pub fn action_is_answered()
    ensures { ActionNotedBy }
{}
