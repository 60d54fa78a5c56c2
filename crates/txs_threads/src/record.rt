//! What a run by workers asked, noted of each actor, and put into one order by which a schedule makes the run again.

use crate::merge::merge;
use std::alloc::{AllocError, Global};
use std::sync::{Mutex, Wait};
use txs_gate::{Gate, Made, Moment};
use txs_machine::Repeated;

/// What was noted: of each actor, by its number, the asks that were served; and whether there was no memory for one.
#[derive(Drop)]
struct Noted {
    asks: Vec<Vec<Made>>,
    lost: bool,
}

impl Noted {
    /// Adds an ask of an actor behind its earlier ones.
    fn add(&mut self, alloc: Global, actor: u16, made: Made) -> Result<(), AllocError> {
        let actor = usize::from(actor);
        for _ in self.asks.len()..actor.saturating_add(1) {
            self.asks.push(Vec::new(alloc))?;
        }
        match self.asks.get_mut(actor) {
            Some(asks) => Ok(asks.push(made)?),
            None => Err(AllocError),
        }
    }
}

/// A gate that lets all pass, as `OpenGate` does, and notes each ask that was served.
#[derive(Drop)]
pub struct Recorder<'a, T: Wait> {
    rt: &'a T,
    alloc: Global,
    noted: Mutex<Noted>,
}

impl<'a, T: Wait> Recorder<'a, T> {
    /// A gate that has noted nothing yet.
    pub fn new(rt: &'a T, alloc: Global) -> Recorder<'a, T> {
        Recorder {
            rt,
            alloc,
            noted: Mutex::new(Noted {
                asks: Vec::new(alloc),
                lost: false,
            }),
        }
    }
}

impl<'a, T: Wait> Recorder<'a, T> {
    /// A list of plays that makes the run again: the asks of all actors in one order. None, where there was no memory to note an ask, or they have no order.
    ///
    /// # Errors
    /// `AllocError` where there was no memory for the plays.
    pub fn plays(&self) -> Result<Option<Vec<Repeated>>, AllocError> {
        let noted = self.noted.lock(self.rt);
        if noted.lost {
            return Ok(None);
        }
        merge(self.alloc, noted.asks.as_slice())
    }
}

impl<'a, T: Wait + Sync> Gate for Recorder<'a, T> {
    fn most_turns(&self) -> u64 {
        u64::MAX
    }

    fn pass(&self, _actor: u16, _moment: Moment) {}

    fn note(&self, actor: u16, made: Made) {
        let mut noted = self.noted.lock(self.rt);
        if noted.add(self.alloc, actor, made).is_err() {
            noted.lost = true;
        }
    }
}
