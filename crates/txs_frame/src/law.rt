//! Laws of what a transaction has done. Each is the contract of a function of its own, which does nothing when it
//! runs.

ghost use Rattle.txs_frame.specs.Laws.{SetIsNotCommuted};

/// A ref that was set is never among those that were commuted and not set.
pub fn set_is_not_commuted()
    ensures { SetIsNotCommuted }
{}
