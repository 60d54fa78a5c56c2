//! Where in its script an actor was stopped.

ghost use Rattle.std.specs.Prelude.{◌≡◌};
ghost use Rattle.txs_value_data.specs.Places.{nth};
ghost use Rattle.txs_machine_actor.specs.PlainActor.{next_place, place_in, stopped_at};

use crate::actor::Actor;
use txs_code_meaning::{Body, Verified};
use txs_value_data::Span;
use txs_world_protocol::Outcome;

/// The span of the instruction at this place of a body, if it has one.
fn place_in(bodies: &[Body], i: usize, at: usize) -> Option<Span>
    ensures { result ≡ place_in (nth bodies.now i) at }
{
    if i >= bodies.len() {
        return None;
    }
    let spans = bodies[i].spans();
    if at >= spans.len() {
        return None;
    }
    Some(spans[at])
}

impl Actor {
    /// The span of the instruction that is next, if there is one: of an actor that asks, of the instruction by which it does.
    pub fn next_place(&self, code: &Verified) -> Option<Span>
        ensures { result ≡ next_place code.now self.now }
    {
        let at = self.stack.place();
        let body = self.stack.body();
        if body == 0 {
            return place_in(code.code().threads(), usize::from(self.number()), at);
        }
        place_in(code.code().functions(), body - 1, at)
    }

    /// Where in its script it was stopped: the span of the instruction that is next. There is none where it goes on, is done or has failed, and
    /// none of an agent's actor between two actions.
    pub fn stopped_at(&self, code: &Verified) -> Option<Span>
        ensures { result ≡ stopped_at code.now self.now }
    {
        match self.outcome() {
            Some(Outcome::StepsSpent | Outcome::JournalFull | Outcome::Memory) => {
                self.next_place(code)
            }
            _ => None,
        }
    }
}
