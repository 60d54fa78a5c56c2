//! Who may go on at a place of the search, and whose asks may be exchanged there.

ghost use Rattle.std.specs.Prelude.{◌≡◌, ◌≤◌, ◌<◌, ◌+◌, ◌^◌, ◌++◌, ◌∷◌, [], length, true, IfOk, OnOk, if◌then◌else◌};
ghost use Rattle.txs_world_book.specs.Book.{has_agent, is_there, times_written, writes_to};
ghost use Rattle.txs_world_book.specs.Served.{cells_of};
ghost use Rattle.txs_world.specs.Store.{next_action};
ghost use Rattle.txs_world_shared.specs.SharedState.{numbered_book, shared_of};
ghost use Rattle.txs_explore.specs.Runners.{are_apart, is_due, is_idle, is_steady, may_exchange};
ghost use Rattle.txs_explore.specs.System.{has};
ghost use Rattle.txs_explore.specs.Node.{AreBelow, apart_in, due_in, kept_by};

use crate::look::Node;
use std::alloc::{AllocError, Global};
use txs_value_data::CellId;
use txs_world_book::writes_to;
use txs_world_protocol::{Ask, Event};
use txs_world_shared::SharedState;

/// One more, if it is so.
fn one_more(times: usize, so: bool) -> usize
    requires { times < 2 ^ 63 }
    ensures { result ≡ (if so then times + 1 else times) }
{
    if so { times + 1 } else { times }
}

/// How often the cell with this number was written by an event of this book at an index from `at` on.
fn times_written(book: &[Event], number: u16, at: usize) -> usize
    requires { at ≤ length book.now }
    ensures { result ≡ times_written number at book.now }
{
    let mut times = 0;
    for i in at..book.len() {
        times = one_more(times, writes_to(&book[i].kind, number));
    }
    times
}

/// How many values of a ref are kept beside its newest.
const MOST_OLDER: usize = 10;

/// Whether an ask looks at a value that is kept whatever one more ask writes.
fn is_steady(book: &[Event], ask: &Ask) -> bool
    ensures { result ≡ is_steady book.now ask.now }
{
    match ask {
        Ask::Look { cell, at } => {
            let at = *at as usize;
            if at > book.len() {
                return false;
            }
            times_written(book, cell.number, at) < MOST_OLDER
        }
        _ => false,
    }
}

/// Whether an agent has an action to take.
fn has_action(shared: &SharedState, agent: CellId) -> bool
    requires { has_agent (cells_of shared.now.cells) agent ≡ true }
    ensures { result ≡ is_there (next_action (cells_of shared.now.cells) (numbered_book shared.now 0) agent) }
{
    shared.failure(agent).is_none() && shared.waiting(agent) > 0
}

/// Whether an ask is for an action of which there is none.
fn is_idle(shared: &SharedState, actor: u16, ask: &Ask) -> bool
    ensures { result ≡ is_idle shared.now.cells shared.now.threads (shared_of shared.now) actor ask.now }
{
    match ask {
        Ask::Take { agent } => shared.lawful(actor, ask) && !has_action(shared, *agent),
        _ => false,
    }
}

/// Whether an actor with this ask may go on.
fn is_due(shared: &SharedState, actor: u16, ask: &Option<Ask>) -> bool
    ensures { result ≡ is_due shared.now.cells shared.now.threads (shared_of shared.now) actor ask.now }
{
    match ask {
        Some(ask) => !is_idle(shared, actor, ask),
        None => false,
    }
}

/// Whether two asks of different actors may be exchanged.
fn may_exchange(shared: &SharedState, p: &Ask, q: &Ask) -> bool
    ensures { result ≡ may_exchange shared.now.cells (shared_of shared.now) p.now q.now }
{
    let of_p = shared.book_for(p);
    let of_q = shared.book_for(q);
    of_p != of_q
        || (!p.may_add_event() && !q.may_add_event())
        || is_steady(shared.numbered_events(of_p), p)
        || is_steady(shared.numbered_events(of_q), q)
}

/// The same of what two actors ask next, if they do.
fn are_apart(shared: &SharedState, p: &Option<Ask>, q: &Option<Ask>) -> bool
    ensures { result ≡ are_apart shared.now.cells (shared_of shared.now) p.now q.now }
{
    let Some(p) = p else {
        return false;
    };
    let Some(q) = q else {
        return false;
    };
    may_exchange(shared, p, q)
}

/// Adds a number to others, where it is wanted.
fn push_if(list: &mut Vec<u16>, k: u16, wanted: bool) -> Result<(), AllocError>
    ensures { OnOk result (list.new.items ≡ (if wanted then list.old.items ++ k ∷ [] else list.old.items)) }
{
    if wanted {
        list.push(k)?;
    }
    Ok(())
}

/// Whether a number is one of these.
pub(crate) fn is_among(k: u16, list: &[u16]) -> bool
    ensures { result ≡ has k list.now }
{
    for j in list {
        if k == *j {
            return true;
        }
    }
    false
}

impl Node {
    /// Who may go on, in ascending order.
    pub(crate) fn due(&self, alloc: Global) -> Result<Vec<u16>, AllocError>
        requires few { length self.now.looks.items ≤ 65535 }
        ensures { IfOk result (λ due. due.items ≡ due_in self.now) }
    {
        let mut due = Vec::new(alloc);
        for k in 0..self.looks.len() {
            let actor = k as u16;
            let wanted = is_due(&self.shared, actor, &self.looks[k].ask);
            push_if(&mut due, actor, wanted)?;
        }
        Ok(due)
    }

    /// Whether the asks of two actors may be exchanged.
    fn are_apart(&self, k: u16, j: u16) -> bool
        requires one { k < length self.now.looks.items }
        requires other { j < length self.now.looks.items }
        ensures { result ≡ apart_in self.now k j }
    {
        let p = &self.looks[usize::from(k)].ask;
        let q = &self.looks[usize::from(j)].ask;
        k != j && are_apart(&self.shared, p, q)
    }

    /// Those of these actors whose asks may be exchanged with this one's.
    pub(crate) fn apart_from(
        &self,
        alloc: Global,
        k: u16,
        asleep: &[u16],
    ) -> Result<Vec<u16>, AllocError>
        requires one { k < length self.now.looks.items }
        requires others { AreBelow (length self.now.looks.items) asleep.now }
        ensures { IfOk result (λ apart. apart.items ≡ kept_by (λ j. apart_in self.now k j) asleep.now) }
    {
        let mut apart = Vec::new(alloc);
        for j in asleep {
            let wanted = self.are_apart(k, *j);
            push_if(&mut apart, *j, wanted)?;
        }
        Ok(apart)
    }
}
