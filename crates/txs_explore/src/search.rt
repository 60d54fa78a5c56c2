//! The search through all schedules, with sleep sets.

ghost use Rattle.std.specs.Prelude.{◌≡◌, ◌≤◌, ◌<◌, ◌+◌, ◌-◌, ◌^◌, length, true, IfOk, OnOk};
ghost use Rattle.txs_explore.specs.System.{has};
ghost use Rattle.txs_explore.specs.Runners.{asking, many};
ghost use Rattle.txs_explore.specs.Told.{explored};
ghost use Rattle.txs_explore.specs.Looked.{IsNode, state_at};
ghost use Rattle.txs_explore.specs.Node.{AreBelow};
ghost use Rattle.txs_explore.specs.Found.{EndsAt, IsSearched, HasSearched, HasBranched, HasTurned, MayGoTo};

use crate::asks::is_among;
use crate::look::{Node, ending_of, look_behind};
use crate::ways::{Found, with_ask};
use std::alloc::{AllocError, Global};
use txs_code_meaning::Verified;

/// The end of a schedule is listed.
pub(crate) fn end_at(
    alloc: Global,
    node: Node,
    asks: &[u16],
    found: &mut Found,
) -> Result<(), AllocError>
    requires few { length node.shared.cells ≤ 65535 }
    ensures { OnOk result (EndsAt node asks.now found.old.ways.items found.new.ways.items) }
{
    let ending = ending_of(alloc, node)?;
    found.add(alloc, ending, asks)?;
    Ok(())
}

/// The search behind these asks, where these actors sleep: whether it went everywhere.
#[cycle(all)]
pub(crate) fn search_all(
    alloc: Global,
    code: &Verified,
    max_steps: u64,
    depth: u32,
    asleep: &[u16],
    asks: &[u16],
    found: &mut Found,
) -> Result<bool, AllocError>
    requires few { length code.now.threads + length code.now.cells ≤ 65535 }
    requires small { max_steps + 1 < 2 ^ 64 - 1 }
    requires may { MayGoTo code.now max_steps asks.now }
    requires sleepers { AreBelow (many (explored code.now max_steps)) asleep.now }
    ensures { IfOk result (λ whole. IsSearched code.now max_steps (HasSearched code.now max_steps depth asleep.now asks.now) found.old.ways.items found.new.ways.items whole) }
{
    let node = look_behind(alloc, code, asks, max_steps)?;
    found.spend(asks.len());
    let due = node.due(alloc)?;
    if due.is_empty() {
        end_at(alloc, node, asks, found)?;
        return Ok(true);
    }
    if depth == 0 {
        return Ok(false);
    }
    if found.left == 0 {
        return Ok(false);
    }
    let whole = branch_all(
        alloc,
        code,
        max_steps,
        depth - 1,
        asleep,
        &node,
        due.as_slice(),
        asks,
        found,
    )?;
    Ok(whole)
}

/// The searches behind an ask of each of the actors that may go on, unless it sleeps.
#[cycle(all)]
fn branch_all(
    alloc: Global,
    code: &Verified,
    max_steps: u64,
    depth: u32,
    asleep: &[u16],
    node: &Node,
    due: &[u16],
    asks: &[u16],
    found: &mut Found,
) -> Result<bool, AllocError>
    requires few { length code.now.threads + length code.now.cells ≤ 65535 }
    requires small { max_steps + 1 < 2 ^ 64 - 1 }
    requires may { MayGoTo code.now max_steps asks.now }
    requires sleepers { AreBelow (many (explored code.now max_steps)) asleep.now }
    requires node { IsNode code.now max_steps asks.now node.now }
    requires due { due.now ≡ (asking (explored code.now max_steps)).enabled (state_at code.now max_steps asks.now) }
    ensures { IfOk result (λ whole. IsSearched code.now max_steps (HasBranched code.now max_steps depth asleep.now asks.now due.now) found.old.ways.items found.new.ways.items whole) }
{
    let mut sleepers = Vec::from_slice(alloc, asleep)?;
    let mut whole = true;
    for k in due {
        let there = turn_all(
            alloc,
            code,
            max_steps,
            depth,
            &mut sleepers,
            node,
            *k,
            asks,
            found,
        )?;
        whole = whole & there;
    }
    Ok(whole)
}

/// The search behind one more ask, of this actor, unless it sleeps. Then it sleeps.
#[cycle(all)]
fn turn_all(
    alloc: Global,
    code: &Verified,
    max_steps: u64,
    depth: u32,
    sleepers: &mut Vec<u16>,
    node: &Node,
    k: u16,
    asks: &[u16],
    found: &mut Found,
) -> Result<bool, AllocError>
    requires few { length code.now.threads + length code.now.cells ≤ 65535 }
    requires small { max_steps + 1 < 2 ^ 64 - 1 }
    requires may { MayGoTo code.now max_steps asks.now }
    requires sleepers { AreBelow (many (explored code.now max_steps)) sleepers.old.items }
    requires node { IsNode code.now max_steps asks.now node.now }
    requires due { has k ((asking (explored code.now max_steps)).enabled (state_at code.now max_steps asks.now)) ≡ true }
    ensures searched { IfOk result (λ whole. IsSearched code.now max_steps (HasTurned code.now max_steps depth asks.now k sleepers.old.items sleepers.new.items) found.old.ways.items found.new.ways.items whole) }
    ensures sleepers { OnOk result (AreBelow (many (explored code.now max_steps)) sleepers.new.items) }
{
    if is_among(k, sleepers.as_slice()) {
        return Ok(true);
    }
    let apart = node.apart_from(alloc, k, sleepers.as_slice())?;
    let more = with_ask(alloc, asks, k)?;
    let whole = search_all(
        alloc,
        code,
        max_steps,
        depth,
        apart.as_slice(),
        more.as_slice(),
        found,
    )?;
    sleepers.insert(0, k)?;
    Ok(whole)
}
