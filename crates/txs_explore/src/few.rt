//! The search through the schedules with few switches.

ghost use Rattle.std.specs.Prelude.{◌≡◌, ◌≤◌, ◌<◌, ◌+◌, ◌-◌, ◌^◌, length, true, IfOk};
ghost use Rattle.txs_explore.specs.System.{has};
ghost use Rattle.txs_explore.specs.Runners.{asking};
ghost use Rattle.txs_explore.specs.Told.{explored};
ghost use Rattle.txs_explore.specs.Looked.{state_at};
ghost use Rattle.txs_explore.specs.Found.{IsSearched, HasSearchedFew, HasAfforded, HasTurnedFew, MayGoTo, switched_in};

use crate::asks::is_among;
use crate::look::look_behind;
use crate::search::end_at;
use crate::ways::{Found, with_ask};
use std::alloc::{AllocError, Global};
use txs_code_meaning::Verified;

/// How many switches an ask of this actor is, behind the last one: one, where the actor that had it may go on, and else none.
fn switched(due: &[u16], last: Option<u16>, k: u16) -> u32
    ensures { result ≡ switched_in due.now last k }
{
    match last {
        Some(j) => { if j != k && is_among(j, due) { 1 } else { 0 } }
        None => 0,
    }
}

/// The search behind these asks, with at most so many switches: whether it went everywhere.
#[cycle(few)]
pub(crate) fn search_few(
    alloc: Global,
    code: &Verified,
    max_steps: u64,
    depth: u32,
    left: u32,
    last: Option<u16>,
    asks: &[u16],
    found: &mut Found,
) -> Result<bool, AllocError>
    requires few { length code.now.threads + length code.now.cells ≤ 65535 }
    requires small { max_steps + 1 < 2 ^ 64 - 1 }
    requires may { MayGoTo code.now max_steps asks.now }
    ensures { IfOk result (λ whole. IsSearched code.now max_steps (HasSearchedFew code.now max_steps depth left last asks.now) found.old.ways.items found.new.ways.items whole) }
{
    let node = look_behind(alloc, code, asks, max_steps)?;
    found.spend(asks.len());
    let due = node.due(alloc)?;
    if due.is_empty() {
        end_at(alloc, node, asks, found)?;
        return Ok(true);
    }
    drop(node);
    if depth == 0 {
        return Ok(false);
    }
    if found.left == 0 {
        return Ok(false);
    }
    let whole = branch_few(
        alloc,
        code,
        max_steps,
        depth - 1,
        left,
        last,
        due.as_slice(),
        asks,
        found,
    )?;
    Ok(whole)
}

/// The searches behind an ask of each of the actors that may go on for which enough switches are left.
#[cycle(few)]
fn branch_few(
    alloc: Global,
    code: &Verified,
    max_steps: u64,
    depth: u32,
    left: u32,
    last: Option<u16>,
    due: &[u16],
    asks: &[u16],
    found: &mut Found,
) -> Result<bool, AllocError>
    requires few { length code.now.threads + length code.now.cells ≤ 65535 }
    requires small { max_steps + 1 < 2 ^ 64 - 1 }
    requires may { MayGoTo code.now max_steps asks.now }
    requires due { due.now ≡ (asking (explored code.now max_steps)).enabled (state_at code.now max_steps asks.now) }
    ensures { IfOk result (λ whole. IsSearched code.now max_steps (HasAfforded code.now max_steps depth left last asks.now due.now) found.old.ways.items found.new.ways.items whole) }
{
    let mut whole = true;
    for k in due {
        let there = turn_few(
            alloc, code, max_steps, depth, left, last, due, *k, asks, found,
        )?;
        whole = whole & there;
    }
    Ok(whole)
}

/// The search behind one more ask, of this actor, where enough switches are left for it.
#[cycle(few)]
fn turn_few(
    alloc: Global,
    code: &Verified,
    max_steps: u64,
    depth: u32,
    left: u32,
    last: Option<u16>,
    due: &[u16],
    k: u16,
    asks: &[u16],
    found: &mut Found,
) -> Result<bool, AllocError>
    requires few { length code.now.threads + length code.now.cells ≤ 65535 }
    requires small { max_steps + 1 < 2 ^ 64 - 1 }
    requires may { MayGoTo code.now max_steps asks.now }
    requires due { due.now ≡ (asking (explored code.now max_steps)).enabled (state_at code.now max_steps asks.now) }
    requires one { has k due.now ≡ true }
    ensures { IfOk result (λ whole. IsSearched code.now max_steps (HasTurnedFew code.now max_steps depth left last asks.now k) found.old.ways.items found.new.ways.items whole) }
{
    let cost = switched(due, last, k);
    if cost > left {
        return Ok(true);
    }
    let more = with_ask(alloc, asks, k)?;
    let whole = search_few(
        alloc,
        code,
        max_steps,
        depth,
        left - cost,
        Some(k),
        more.as_slice(),
        found,
    )?;
    Ok(whole)
}
