//! All outcomes of a code: first those of schedules with few switches, and then of all schedules.

ghost use Rattle.std.specs.Prelude.{◌≡◌, ◌≤◌, ◌<◌, ◌+◌, ◌-◌, ◌^◌, ℕ, length, true, IfOk, Some};
ghost use Rattle.txs_explore.specs.Found.{IsSearched, AreSearchedFew};
ghost use Rattle.txs_explore.specs.Ways.{AreRuns, AreAll, AreAllOfFew};

use crate::few::search_few;
use crate::search::search_all;
use crate::ways::{Found, Way};
use std::alloc::{AllocError, Global};
use txs_code_meaning::Verified;

/// How far a search goes.
#[derive(Clone, Copy)]
pub struct Limits {
    /// How many instructions each actor may run.
    pub max_steps: u64,
    /// How many asks a schedule may have.
    pub depth: u32,
    /// How many searches with few switches are made at most: with none, with one, with two and so on.
    pub switches: u32,
    /// How many asks may be made in all by the searches with few switches, and how many by the search through all schedules.
    pub asks: u64,
}

/// The outcomes that were found.
#[derive(Drop)]
pub struct Explored {
    /// Each with a schedule that comes to it: of the search with the fewest switches that found it.
    pub ways: Vec<Way>,
    /// Whether there are no others.
    pub whole: bool,
    /// The number of switches, if there is one, such that no schedule with at most so many has another.
    pub within: Option<u32>,
}

/// The searches with 0, 1, 2 and more switches, until one doesn't go everywhere, or makes no more asks than the one before: the last that did go everywhere.
fn explore_few(
    alloc: Global,
    code: &Verified,
    limits: Limits,
    found: &mut Found,
) -> Result<Option<u32>, AllocError>
    requires few { length code.now.threads + length code.now.cells ≤ 65535 }
    requires small { limits.max_steps + 1 < 2 ^ 64 - 1 }
    ensures { IfOk result (λ within. AreSearchedFew code.now limits.max_steps limits.depth found.old.ways.items found.new.ways.items within) }
{
    let mut within = None;
    let mut asks_before = 0;
    for most in 0..limits.switches {
        let left = found.left;
        let whole = search_few(
            alloc,
            code,
            limits.max_steps,
            limits.depth,
            most,
            None,
            &[],
            found,
        )?;
        if !whole {
            return Ok(within);
        }
        within = Some(most);
        // one more switch brought no schedule, so none will
        let asks_now = left.saturating_sub(found.left);
        if asks_now == asks_before {
            return Ok(within);
        }
        asks_before = asks_now;
    }
    Ok(within)
}

/// The outcomes of all schedules of a code's threads and agents, within limits. A schedule is a list of asks: each is an actor's next, with all that the actor does up to it. The same outcome is listed once.
///
/// # Errors
/// `AllocError` where a growth of memory was refused, also to an actor.
pub fn explore(alloc: Global, code: &Verified, limits: Limits) -> Result<Explored, AllocError>
    requires few { length code.now.threads + length code.now.cells ≤ 65535 }
    requires small { limits.max_steps + 1 < 2 ^ 64 - 1 }
    ensures runs { IfOk result (λ explored. AreRuns code.now limits.max_steps explored.ways.items) }
    ensures all { IfOk result (λ explored. explored.whole ≡ true → AreAll code.now limits.max_steps explored.ways.items) }
    ensures few { IfOk result (λ explored. (most : ℕ) → explored.within ≡ Some most → AreAllOfFew code.now limits.max_steps most explored.ways.items) }
{
    let mut found = Found {
        ways: Vec::new(alloc),
        left: limits.asks,
    };
    let within = explore_few(alloc, code, limits, &mut found)?;
    found.left = limits.asks;
    let whole = search_all(
        alloc,
        code,
        limits.max_steps,
        limits.depth,
        &[],
        &[],
        &mut found,
    )?;
    let Found { ways, left: _ } = found;
    Ok(Explored {
        ways,
        whole,
        within,
    })
}
