//! The traces of actors against the books.

ghost use Rattle.std.specs.Prelude.{◌≡◌, ◌<◌, ◌+◌, ◌^◌, ◌++◌, ◌&&◌, ℕ, [], nat_lt, suc, length, map, set, IfOk};
ghost use Rattle.std.proofs.Common.{get_or};
ghost use Rattle.txs_value_data.specs.Places.{nth};
ghost use Rattle.txs_theorem_audit.specs.Audited.{books_of, ran_as, report_as};
ghost use Rattle.txs_theorem_audit.specs.Verdict.{traces_found};
ghost use Rattle.txs_audit_order.specs.Named.{HasActor, HasActors, OffIn, OffOf, all_named, is_this, plain_trace, off_in};

use crate::trace_rows::{Row, all_rows};
use std::alloc::{AllocError, Global};
use txs_value_data::Listed;
use txs_world_protocol::{ActorReport, Place, Report};

/// As many zeros.
fn zeros(alloc: Global, count: usize) -> Result<Vec<usize>, AllocError>
    ensures many { IfOk result (λ zs. length zs.items ≡ count) }
    ensures each { IfOk result (λ zs. (n : ℕ) → get_or zs.items n 0 ≡ 0) }
{
    let mut all = Vec::new(alloc);
    for _i in 0..count {
        all.push(0)?;
    }
    Ok(all)
}

/// Whether this is the index of the actor's event behind so many in its book.
fn is_at(row: &Row, many: usize, at: u32) -> bool
    ensures { result ≡ is_this at (nth row.now many) }
{
    match row.as_slice().get(many) {
        Some(index) => *index == at as usize,
        None => false,
    }
}

/// Whether this place is the actor's next one in its book, of which so many are named.
fn is_next(all: &[Listed<Row>], actor: usize, named: &[usize], place: Place) -> bool
    requires rows { HasActor actor all.now }
    requires many { length named.now ≡ length all.now }
    ensures { result ≡ (nat_lt place.book (length all.now) && is_this place.at (nth (get_or (get_or all.now place.book []) actor []) (get_or named.now place.book 0))) }
{
    let book = place.book as usize;
    if book >= all.len() {
        return false;
    }
    let rows = all[book].as_slice();
    is_at(&rows[actor], named[book], place.at)
}

/// Whether all of the actor's events are named.
fn are_named(all: &[Listed<Row>], actor: usize, named: &[usize]) -> bool
    requires rows { HasActor actor all.now }
    requires many { length named.now ≡ length all.now }
    ensures { result ≡ all_named actor all.now named.now }
{
    for (i, many) in named.iter().enumerate() {
        let rows = all[i].as_slice();
        if rows[actor].as_slice().len() != *many {
            return false;
        }
    }
    true
}

/// One more place of this book is named.
fn name_one(named: &mut Vec<usize>, book: u32)
    requires there { book < length named.old.items }
    requires few { get_or named.old.items book 0 < 18446744073709551615 }
    ensures { named.new.items ≡ set named.old.items book (get_or named.old.items book 0 + 1) }
{
    named[book as usize] += 1;
}

/// An actor's trace against the rows of the books: the index at which it is off, if it is.
fn trace_off(
    alloc: Global,
    all: &[Listed<Row>],
    actor: usize,
    trace: &[Place],
) -> Result<Option<usize>, AllocError>
    requires { HasActor actor all.now }
    ensures { IfOk result (OffOf all.now actor (plain_trace trace.now)) }
{
    let mut named = zeros(alloc, all.len())?;
    for (i, place) in trace.iter().enumerate() {
        if !is_next(all, actor, named.as_slice(), *place) {
            return Ok(Some(i));
        }
        name_one(&mut named, place.book);
    }
    if are_named(all, actor, named.as_slice()) {
        return Ok(None);
    }
    Ok(Some(trace.len()))
}

/// The first actor whose trace is off, and where, among these entries, of which the first is of this actor.
fn rans_off(
    alloc: Global,
    all: &[Listed<Row>],
    first: usize,
    rans: &[ActorReport],
) -> Result<Option<(usize, usize)>, AllocError>
    requires few { first + length rans.now < 2 ^ 64 }
    requires rows { HasActors first (length rans.now) all.now }
    ensures { IfOk result (OffIn all.now first rans.now) }
{
    for (i, ran) in rans.iter().enumerate() {
        let actor = first + i;
        match trace_off(alloc, all, actor, ran.trace.as_slice())? {
            Some(at) => return Ok(Some((actor, at))),
            None => {}
        }
    }
    Ok(None)
}

/// The first actor whose trace doesn't name its events of the books, and the index at which it is off.
pub fn traces_off(alloc: Global, report: &Report) -> Result<Option<(usize, usize)>, AllocError>
    ensures { IfOk result (λ o. off_in o ≡ traces_found (books_of (report_as report.now)) (suc (length report.now.atom_books.items)) 0 (map ran_as report.now.threads.items ++ map ran_as report.now.agents.items)) }
{
    let threads = report.threads.len();
    let all = all_rows(alloc, threads + report.agents.len(), report)?;
    match rans_off(alloc, all.as_slice(), 0, report.threads.as_slice())? {
        Some(off) => Ok(Some(off)),
        None => rans_off(alloc, all.as_slice(), threads, report.agents.as_slice()),
    }
}
