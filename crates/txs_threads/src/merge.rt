//! Asks of several actors, put into one order. The asks of each actor stay in their order, and each is served where its book has as many events as it had.
//! So each is answered as it was.

use std::alloc::{AllocError, Global};
use txs_gate::Made;
use txs_machine::{Play, Repeated};

/// How often a play is made in a row at most, where it is written once.
const MOST_TIMES: u32 = 100_000;

/// So many zeros.
fn zeros(alloc: Global, count: usize) -> Result<Vec<usize>, AllocError> {
    let mut all = Vec::with_capacity(alloc, count)?;
    for _ in 0..count {
        all.push(0)?;
    }
    Ok(all)
}

/// How many asks there are.
fn count_all(asks: &[Vec<Made>]) -> usize {
    let mut count: usize = 0;
    for made in asks {
        count = count.saturating_add(made.len());
    }
    count
}

/// How many places there are under a lock: one for each number of events that its book has, up to that behind this ask.
fn add_places(places: &mut Vec<usize>, made: Made) -> Result<(), AllocError> {
    let lock = made.lock as usize;
    for _ in places.len()..lock.saturating_add(1) {
        places.push(0)?;
    }
    if let Some(count) = places.get_mut(lock) {
        *count = (*count).max((made.at as usize).saturating_add(2));
    }
    Ok(())
}

/// The asks of all actors, and how far they were put into their order.
#[derive(Drop)]
struct Merging<'a> {
    asks: &'a [Vec<Made>],
    /// Of each actor, how many of its asks have their place in the order.
    done: Vec<usize>,
    /// Of each lock, how many events its book has by these asks.
    events: Vec<usize>,
    /// Of each lock, the number of its first place. A place is a lock with a number of events.
    first: Vec<usize>,
    /// Of each place, how many asks that add no event are still to come there.
    others: Vec<usize>,
    /// Of each place, the actor that waits there and comes first, as its number and one more; 0 if none does.
    waits: Vec<usize>,
    /// Of each actor that waits, the one that waits behind it, in the same way.
    behind: Vec<usize>,
    /// The actors that may go on.
    ready: Vec<usize>,
    plays: Vec<Repeated>,
}

/// The number at an index, or 0 behind the last.
fn at(numbers: &[usize], index: usize) -> usize {
    match numbers.get(index) {
        Some(number) => *number,
        None => 0,
    }
}

/// Sets the number at an index.
fn set(numbers: &mut Vec<usize>, index: usize, to: usize) {
    if let Some(number) = numbers.get_mut(index) {
        *number = to;
    }
}

/// Of each lock the number of its first place, and behind them how many places there are.
fn firsts(alloc: Global, places: &[usize]) -> Result<Vec<usize>, AllocError> {
    let mut first = Vec::with_capacity(alloc, places.len().saturating_add(1))?;
    let mut next: usize = 0;
    for count in places {
        first.push(next)?;
        next = next.saturating_add(*count);
    }
    first.push(next)?;
    Ok(first)
}

/// Whether a play is up to an ask of this actor.
fn is_ask_of(play: Play, actor: usize) -> bool {
    match play {
        Play::Ask(number) => usize::from(number) == actor,
        Play::Turn(_) => false,
    }
}

impl<'a> Merging<'a> {
    /// Nothing has its place yet.
    fn new(alloc: Global, asks: &'a [Vec<Made>]) -> Result<Merging<'a>, AllocError> {
        let mut places = Vec::new(alloc);
        for all in asks {
            for made in all.as_slice() {
                add_places(&mut places, *made)?;
            }
        }
        let first = firsts(alloc, places.as_slice())?;
        let count = at(first.as_slice(), places.len());
        let mut merging = Merging {
            asks,
            done: zeros(alloc, asks.len())?,
            events: zeros(alloc, places.len())?,
            first,
            others: zeros(alloc, count)?,
            waits: zeros(alloc, count)?,
            behind: zeros(alloc, asks.len())?,
            ready: Vec::with_capacity(alloc, asks.len())?,
            plays: Vec::new(alloc),
        };
        merging.count_others();
        merging.all_ready()?;
        Ok(merging)
    }

    /// The place at which an ask was served.
    fn place(&self, made: Made) -> usize {
        at(self.first.as_slice(), made.lock as usize).saturating_add(made.at as usize)
    }

    /// Counts at each place the asks that add no event.
    fn count_others(&mut self) {
        for all in self.asks {
            for made in all.as_slice() {
                if !made.added {
                    let place = self.place(*made);
                    let others = at(self.others.as_slice(), place).saturating_add(1);
                    set(&mut self.others, place, others);
                }
            }
        }
    }

    /// All actors may go on, the first at first.
    fn all_ready(&mut self) -> Result<(), AllocError> {
        let actors = self.asks.len();
        for i in 0..actors {
            self.ready.push(actors - 1 - i)?;
        }
        Ok(())
    }

    /// Whether an ask may have its place now: its book has as many events as it had, and no ask that adds none is to come there before it.
    fn may(&self, made: Made) -> bool {
        at(self.events.as_slice(), made.lock as usize) == made.at as usize
            && (!made.added || at(self.others.as_slice(), self.place(made)) == 0)
    }

    /// The actor waits for the place of its ask.
    fn wait(&mut self, actor: usize, made: Made) {
        let place = self.place(made);
        let next = at(self.waits.as_slice(), place);
        set(&mut self.behind, actor, next);
        set(&mut self.waits, place, actor.saturating_add(1));
    }

    /// All that wait for a place may go on.
    fn wake(&mut self, place: usize) -> Result<(), AllocError> {
        for _ in 0..self.asks.len() {
            let next = at(self.waits.as_slice(), place);
            if next == 0 {
                return Ok(());
            }
            let behind = at(self.behind.as_slice(), next - 1);
            set(&mut self.waits, place, behind);
            self.ready.push(next - 1)?;
        }
        Ok(())
    }

    /// Adds a play of an actor. Numbers have 16 bits here, so there is one.
    fn add_play(&mut self, actor: usize) -> Result<(), AllocError> {
        if let Some(last) = self.plays.last_mut() {
            if is_ask_of(last.play, actor) && last.times < MOST_TIMES {
                last.times = last.times.saturating_add(1);
                return Ok(());
            }
        }
        let Ok(number) = u16::try_from(actor) else {
            return Ok(());
        };
        Ok(
            self.plays.push(Repeated {
                play: Play::Ask(number),
                times: 1,
            })?,
        )
    }

    /// An ask of the actor gets its place, and those may go on that waited for it.
    fn put(&mut self, actor: usize, made: Made) -> Result<(), AllocError> {
        self.add_play(actor)?;
        let done = at(self.done.as_slice(), actor).saturating_add(1);
        set(&mut self.done, actor, done);
        let lock = made.lock as usize;
        let place = self.place(made);
        if made.added {
            set(&mut self.events, lock, (made.at as usize).saturating_add(1));
            return self.wake(place.saturating_add(1));
        }
        let others = at(self.others.as_slice(), place).saturating_sub(1);
        set(&mut self.others, place, others);
        if others == 0 {
            return self.wake(place);
        }
        Ok(())
    }

    /// The asks of an actor get their places, up to one that has to wait.
    fn go_on(&mut self, actor: usize) -> Result<(), AllocError> {
        let Some(all) = self.asks.get(actor) else {
            return Ok(());
        };
        for i in at(self.done.as_slice(), actor)..all.len() {
            let Some(made) = all.get(i) else {
                return Ok(());
            };
            if !self.may(*made) {
                self.wait(actor, *made);
                return Ok(());
            }
            self.put(actor, *made)?;
        }
        Ok(())
    }

    /// Whether each ask of each actor has its place.
    fn is_done(&self) -> bool {
        for (i, all) in self.asks.iter().enumerate() {
            if at(self.done.as_slice(), i) != all.len() {
                return false;
            }
        }
        true
    }
}

/// One order of the asks of all actors: each as a play of its actor. None, where they have no order, or an actor's number hasn't 16 bits.
pub(crate) fn merge(
    alloc: Global,
    asks: &[Vec<Made>],
) -> Result<Option<Vec<Repeated>>, AllocError> {
    if asks.len() > 65_536 {
        return Ok(None);
    }
    let mut merging = Merging::new(alloc, asks)?;
    // (an actor goes on once at first, and at most twice for each ask)
    let most = count_all(asks).saturating_mul(2).saturating_add(asks.len());
    for _ in 0..most {
        let Some(actor) = merging.ready.pop() else {
            break;
        };
        merging.go_on(actor)?;
    }
    if !merging.is_done() {
        return Ok(None);
    }
    let Merging { plays, .. } = merging;
    Ok(Some(plays))
}
