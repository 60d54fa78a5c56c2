//! What an actor asks the shared state, by what it waits for.

ghost use Rattle.std.specs.Prelude.{◌≡◌, ◌++◌, IfErr, IfOk, List};
ghost use Rattle.txs_machine_transaction.specs.Asks.{applied_in, ask_of_read, ask_for, AskWantsMemory};
ghost use Rattle.txs_machine_transaction.specs.Transaction.{is_running};
ghost use Rattle.txs_world_protocol.specs.declared.ask.Ask.TheVariants as ask;
ghost use Rattle.txs_frame.specs.Frame.{set_writes};
ghost use Rattle.txs_value_cell.specs.declared.action.Action.{Action as AnAction};
ghost use Rattle.txs_machine_transaction.specs.declared.state.Pending.TheVariants.{Commit, Hold};

use crate::instructions::runs;
use crate::kept::KeptTransaction;
use crate::state::{Pending, Transaction};
use std::alloc::{AllocError, Global};
use txs_frame::TxFrame;
use txs_value_cell::{Action, copy_action};
use txs_value_data::{CellId, Listed, Value, copy_value};
use txs_world_protocol::Ask;

/// The same refs in a list of their own: mostly there are none.
#[inline(always)]
fn copy_cells(alloc: Global, cells: &[CellId]) -> Result<Listed<CellId>, AllocError>
    ensures { IfOk result (λ c. c ≡ cells.now) }
{
    if cells.is_empty() {
        return Ok(Listed::from_vec(Vec::new(alloc)));
    }
    Ok(Listed::from_vec(Vec::from_slice(alloc, cells)?))
}

/// The same actions in a list of its own: mostly there are none.
#[inline(always)]
pub fn copy_sends(alloc: Global, sends: &[Action]) -> Result<Listed<Action>, AllocError>
    ensures { IfOk result (λ c. c ≡ sends.now) }
{
    if sends.is_empty() {
        return Ok(Listed::from_vec(Vec::new(alloc)));
    }
    copy_actions(alloc, sends)
}

/// The same actions in a list of its own.
fn copy_actions(alloc: Global, sends: &[Action]) -> Result<Listed<Action>, AllocError>
    ensures { IfOk result (λ c. c ≡ sends.now) }
{
    let mut copies = Vec::with_capacity(alloc, sends.len())?;
    for send in sends {
        copies.push_reserved(copy_action(send)?);
    }
    Ok(Listed::from_vec(copies))
}

/// The same actions as in two lists, one behind the other, in a list of its own.
pub fn join_sends(
    alloc: Global,
    first: &[Action],
    more: &[Action],
) -> Result<Listed<Action>, AllocError>
    ensures { IfOk result (λ all. all ≡ first.now ++ more.now) }
{
    let mut all = copy_sends(alloc, first)?.into_vec();
    let mut behind = copy_sends(alloc, more)?.into_vec();
    all.append(&mut behind)?;
    Ok(Listed::from_vec(all))
}

/// The values so far of the refs whose commutes are applied.
#[inline(always)]
fn applied_in(tx: &KeptTransaction) -> Result<Listed<(CellId, Value)>, AllocError>
    ensures { IfOk result (λ ws. ws ≡ applied_in tx.now) }
{
    match tx.whole() {
        Some(Transaction::Applying { phase, .. }) => Ok(Listed::from_vec(phase.writes()?)),
        _ => Ok(Listed::from_vec(Vec::new(tx.alloc()))),
    }
}

/// What is asked for the value of a cell: where a transaction runs, that at its read point, and else the newest.
#[inline(always)]
pub fn ask_of_read(cell: CellId, tx: &KeptTransaction, at: u32) -> Ask
    ensures { result ≡ ask_of_read cell (is_running tx.now) at }
{
    if runs(tx) {
        return Ask::Look { cell, at };
    }
    Ask::Peek { cell }
}

/// What is asked for the end of a transaction with this read point, this last view and this frame, which sends these actions. An
/// error comes where there was no memory for the lists of what it commits.
#[inline(always)]
fn commit_with(
    tx: &KeptTransaction,
    at: u32,
    view: u32,
    frame: &TxFrame,
    sends: Listed<Action>,
) -> Result<Ask, AllocError>
    ensures { IfOk result (λ q. q ≡ ask.Commit at (set_writes frame.now) frame.now.ensures view (applied_in tx.now) sends) }
{
    let commuted = applied_in(tx)?;
    let ensured = copy_cells(tx.alloc(), frame.ensured())?;
    let sets = Listed::from_vec(frame.writes()?);
    Ok(Ask::Commit {
        at,
        sets,
        ensured,
        view,
        commuted,
        sends,
    })
}

/// The same, which sends what its frame holds.
#[inline(always)]
pub fn ask_of_commit(
    tx: &KeptTransaction,
    at: u32,
    view: u32,
    frame: &TxFrame,
) -> Result<Ask, AllocError>
    ensures { IfOk result (λ q. q ≡ ask_for Commit (is_running tx.now) at view (applied_in tx.now) frame.now) }
{
    let sends = copy_sends(tx.alloc(), frame.sends())?;
    commit_with(tx, at, view, frame, sends)
}

/// The same, whose sends an action holds: it sends nothing.
fn ask_to_hold(tx: &KeptTransaction, at: u32, view: u32, frame: &TxFrame) -> Result<Ask, AllocError>
    ensures { IfOk result (λ q. (xs : List AnAction) → q ≡ ask_for (Hold xs) (is_running tx.now) at view (applied_in tx.now) frame.now) }
{
    let sends = Listed::from_vec(Vec::new(tx.alloc()));
    commit_with(tx, at, view, frame, sends)
}

/// What is asked for this, where the transaction has this read point, this last view and this frame. An error comes where there
/// was no memory for an ask that carries values, cells or actions: to view, to reset, to send, to close a swap, to commit, and
/// to hand in an action's value. Other asks want none.
pub fn ask_for(
    pending: &Pending,
    tx: &KeptTransaction,
    at: u32,
    view: u32,
    frame: &TxFrame,
) -> Result<Ask, AllocError>
    ensures ask { IfOk result (λ q. q ≡ ask_for pending.now (is_running tx.now) at view (applied_in tx.now) frame.now) }
    ensures memory { IfErr result (λ _. AskWantsMemory pending.now) }
{
    match pending {
        Pending::Begin { .. } => Ok(Ask::Begin),
        Pending::Read(cell) => Ok(ask_of_read(*cell, tx, at)),
        Pending::Ensure(cell, _) | Pending::Open(cell, _, _) => Ok(Ask::Look { cell: *cell, at }),
        Pending::View(_) => Ok(Ask::View {
            cells: Listed::from_vec(frame.commuted()?),
        }),
        Pending::Reset(cell, value) => Ok(Ask::CloseAt {
            cell: *cell,
            at: None,
            new: copy_value(value)?,
        }),
        Pending::Swap(cell, _, _) => Ok(Ask::OpenAt { cell: *cell }),
        Pending::Close(cell, at, value) => Ok(Ask::CloseAt {
            cell: *cell,
            at: Some(*at),
            new: copy_value(value)?,
        }),
        Pending::Send(action, _) => Ok(Ask::Send {
            action: copy_action(action)?,
        }),
        Pending::Commit => ask_of_commit(tx, at, view, frame),
        Pending::Hold(_) => ask_to_hold(tx, at, view, frame),
        Pending::Fail(_) => Ok(Ask::Fail { at, view }),
        Pending::Broke(cell, at, _) => Ok(Ask::Broke {
            cell: *cell,
            at: *at,
        }),
        Pending::Take(agent) => Ok(Ask::Take { agent: *agent }),
        Pending::Finish(agent, Ok((value, sends))) => Ok(Ask::Finish {
            agent: *agent,
            new: Ok(copy_value(value)?),
            sends: copy_sends(tx.alloc(), sends.as_slice())?,
        }),
        Pending::Finish(agent, Err(fault)) => Ok(Ask::Finish {
            agent: *agent,
            new: Err(*fault),
            sends: Listed::from_vec(Vec::new(tx.alloc())),
        }),
    }
}
