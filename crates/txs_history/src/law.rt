//! A history of what actors asked under several locks is a run by turns. Each actor follows it by its code, and each ask
//! is one that its actor made. Then some list of turns leaves the same books and the same actors. Nothing in this crate
//! runs.

ghost use Rattle.txs_history.specs.Following.{HistoryIsRun};

/// Each actor follows a history by its code, and these actors made all of its asks. Then some list of their turns leaves what is
/// shared as the history does, and each of them at its end.
pub fn history_is_run()
    ensures { HistoryIsRun }
{}
