//! A look at all actors behind some asks: what each asks next, and what is told of it.

ghost use Rattle.std.specs.Prelude.{◌≡◌, ◌≤◌, ◌<◌, ◌+◌, ◌-◌, ◌^◌, length, IfOk};
ghost use Rattle.txs_machine_actor.specs.declared.outcome.Turn.TheVariants as turned;
ghost use Rattle.txs_explore.specs.Runners.{many};
ghost use Rattle.txs_world_shared.specs.Parts.{values_of, faults_of};
ghost use Rattle.txs_explore.specs.Told.{explored};
ghost use Rattle.txs_explore.specs.Looked.{IsAskOf, IsFresh, AreFresh, IsLook, AreLooks, IsNode};
ghost use Rattle.txs_explore.specs.Node.{AreBelow, IsEndingOf, ends_of};

use crate::ending::{End, Ending};
use crate::replay::{Stage, all_players, replay};
use std::alloc::{AllocError, Global};
use txs_code_meaning::Verified;
use txs_machine::{Actor, Outcome, Player, SharedState, Turn};
use txs_machine_turn::run;
use txs_value_data::Listed;
use txs_world_protocol::Ask;

/// Of an actor that went on alone as far as it could: what it asks next, if it does, and what is told of it.
#[derive(Drop)]
pub(crate) struct Look {
    pub(crate) ask: Option<Ask>,
    pub(crate) end: End,
}

/// What actors share behind some asks, and of each what was seen.
#[derive(Drop)]
pub(crate) struct Node {
    pub(crate) shared: SharedState,
    pub(crate) looks: Vec<Look>,
}

/// The ask to which turns came, if they did not come to an end.
fn ask_of(turn: Turn) -> Result<Option<Ask>, AllocError>
    requires { turn ≡ turned.Went → ⊥ }
    ensures { IfOk result (λ ask. IsAskOf turn ask) }
{
    match turn {
        Turn::Asks(ask) => Ok(Some(ask)),
        Turn::Ended(Outcome::Memory) => Err(AllocError),
        Turn::Ended(_) => Ok(None),
        Turn::Went => unreachable!(),
    }
}

/// An actor goes on alone as far as it can.
fn look_at(code: &Verified, actor: Actor, max_steps: u64) -> Result<Look, AllocError>
    requires small { max_steps + 1 < 2 ^ 64 - 1 }
    requires fresh { IsFresh code.now max_steps actor }
    ensures { IfOk result (λ look. IsLook code.now actor look) }
{
    let mut actor = actor;
    let mut turn = Turn::Went;
    run(&mut actor, code, u64::MAX, &mut turn);
    let outcome = actor.outcome();
    let printed = Listed::from_vec(actor.into_printed());
    let ask = ask_of(turn)?;
    Ok(Look {
        ask,
        end: End { outcome, printed },
    })
}

/// Each of these actors does.
fn look_each(
    alloc: Global,
    code: &Verified,
    players: Vec<Player>,
    max_steps: u64,
) -> Result<Vec<Look>, AllocError>
    requires small { max_steps + 1 < 2 ^ 64 - 1 }
    requires fresh { AreFresh code.now max_steps players.items }
    ensures { IfOk result (λ looks. AreLooks code.now players.items looks.items) }
{
    let mut looks = Vec::new(alloc);
    for player in players {
        let Player { actor, trace } = player;
        drop(trace);
        let look = look_at(code, actor, max_steps)?;
        looks.push(look)?;
    }
    Ok(looks)
}

/// A look at all actors behind these asks.
///
/// # Errors
/// `AllocError` where a growth of memory was refused, also to an actor.
pub(crate) fn look_behind(
    alloc: Global,
    code: &Verified,
    asks: &[u16],
    max_steps: u64,
) -> Result<Node, AllocError>
    requires few { length code.now.threads + length code.now.cells ≤ 65535 }
    requires small { max_steps + 1 < 2 ^ 64 - 1 }
    requires named { AreBelow (many (explored code.now max_steps)) asks.now }
    ensures { IfOk result (λ node. IsNode code.now max_steps asks.now node) }
{
    let stage = replay(alloc, code, asks, max_steps)?;
    let Stage { players, shared } = stage;
    let all = all_players(players)?;
    let looks = look_each(alloc, code, all, max_steps)?;
    Ok(Node { shared, looks })
}

/// What is told of these actors.
fn ends_of(alloc: Global, looks: Vec<Look>) -> Result<Vec<End>, AllocError>
    ensures { IfOk result (λ ends. ends.items ≡ ends_of looks.items) }
{
    let mut ends = Vec::with_capacity(alloc, looks.len())?;
    for look in looks {
        let Look { ask, end } = look;
        drop(ask);
        ends.push(end)?;
    }
    Ok(ends)
}

/// What is told of the end, where nobody may go on.
pub(crate) fn ending_of(alloc: Global, node: Node) -> Result<Ending, AllocError>
    requires few { length node.shared.cells ≤ 65535 }
    ensures { IfOk result (λ ending. IsEndingOf node ending) }
{
    let Node { shared, looks } = node;
    let actors = ends_of(alloc, looks)?;
    let cells = shared.values(alloc)?;
    let failed = shared.failures(alloc)?;
    Ok(Ending {
        actors: Listed::from_vec(actors),
        cells: Listed::from_vec(cells),
        failed: Listed::from_vec(failed),
    })
}
