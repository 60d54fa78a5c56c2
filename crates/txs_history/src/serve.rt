//! What an ask comes to, and its place in the log.

ghost use Rattle.std.specs.Prelude.{◌≡◌, ◌<◌, ◌≤◌, ◌^◌, length, IsTrue, IsFalse};
ghost use Rattle.txs_history.specs.History.{events_of, HasOthers};
ghost use Rattle.txs_value_data.specs.Limits.{most_events};
ghost use Rattle.txs_history.specs.Logged.{is_memory, WasNoted};

use crate::{Asked, Log, Naming, Past, StandsFor};
use txs_world_protocol::{Event, Reply};

/// How many asks there may be under a lock.
pub(crate) const MOST_ASKS: u64 = 1 << 62;

/// An answer, how many events the book had before, and whether it has one more now.
#[derive(Drop)]
pub struct Served {
    pub reply: Reply,
    pub at: u32,
    pub added: bool,
}

/// How many events a book has, as an index in it.
#[tactic(auto, unfolding(txs_value_data::specs::Limits::most_events))]
pub(crate) fn count(events: &[Event]) -> u32
    requires { length events.now ≤ most_events }
    ensures { result ≡ length events.now }
{
    events.len() as u32
}

/// Whether a reply says that there was no memory.
fn is_memory(reply: &Reply) -> bool
    ensures { result ≡ is_memory reply.now }
{
    match reply {
        Reply::Memory => true,
        _ => false,
    }
}

/// Adds the ask that is lent to a log, behind all that a past has seen, which then has seen it. Where the reply is that there was no memory
/// nothing was served, so nothing is added. Then it is only asked whether the log has all asks under its number that the past may have
/// seen. False only where the history has others, which the past then has seen; nothing is added.
pub(crate) fn note<X, M: StandsFor<X, Asked>, J: Naming>(
    log: &mut Log<Asked, J>,
    past: &mut Past<Asked, J>,
    about: &X,
    reply: &Reply,
) -> bool
    requires room { length (events_of log.old.key log.old.log) < 2 ^ 62 }
    ensures key { log.new.key ≡ log.old.key }
    ensures noted { IsTrue result → WasNoted (is_memory reply.now) log.old.key log.old.log past.old log.new.log past.new (M.event about.now) }
    ensures failed { IsFalse result → (log.new ≡ log.old) × HasOthers log.old.key log.old.log past.old past.new }
{
    if !is_memory(reply) {
        return log.push::<X, M>(past, about);
    }
    let mut seen = past.again();
    seen.learn(log);
    if log.is_whole(&mut seen) {
        return true;
    }
    *past = seen;
    false
}
