//! What is told of the end of a run.

ghost use Rattle.std.specs.Prelude.{◌≡◌, ◌↔◌, IsTrue};

use txs_value_data::{Fault, Listed, Value};
use txs_world_protocol::{Outcome, same_values};

/// What is told of an actor: how it ended, if it has, and the bytes that it printed.
#[derive(Drop)]
pub struct End {
    pub outcome: Option<Outcome>,
    pub printed: Listed<u8>,
}

/// What is told of the end of a run.
#[derive(Drop)]
pub struct Ending {
    /// Of each thread, by its number, and behind them of the actor of each agent, in the order of the cells.
    pub actors: Listed<End>,
    /// The value of each cell, by its number; of an agent its state.
    pub cells: Listed<Value>,
    /// Of each agent, in the order of the cells, its fault if it has failed.
    pub failed: Listed<Option<Fault>>,
}

/// Whether the same is told of two actors.
fn same_end(a: &End, b: &End) -> bool
    ensures { IsTrue result ↔ (a.now ≡ b.now) }
{
    a.outcome == b.outcome && a.printed.as_slice() == b.printed.as_slice()
}

/// Whether the same is told of these actors.
fn same_ends(a: &[End], b: &[End]) -> bool
    ensures { IsTrue result ↔ (a.now ≡ b.now) }
{
    if a.len() != b.len() {
        return false;
    }
    for i in 0..a.len() {
        if !same_end(&a[i], &b[i]) {
            return false;
        }
    }
    true
}

/// Whether the same agents have failed, each in the same way.
fn same_failures(a: &[Option<Fault>], b: &[Option<Fault>]) -> bool
    ensures { IsTrue result ↔ (a.now ≡ b.now) }
{
    a == b
}

/// Whether the same is told of two ends.
pub(crate) fn same_ending(a: &Ending, b: &Ending) -> bool
    ensures { IsTrue result ↔ (a.now ≡ b.now) }
{
    if !same_ends(a.actors.as_slice(), b.actors.as_slice()) {
        return false;
    }
    if !same_values(a.cells.as_slice(), b.cells.as_slice()) {
        return false;
    }
    same_failures(a.failed.as_slice(), b.failed.as_slice())
}
