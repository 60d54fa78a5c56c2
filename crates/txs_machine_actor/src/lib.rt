//! Actors: what runs the code of a thread or of an agent, and of the functions that it calls, one instruction a turn. A
//! turn is the machine's meaning of one instruction, an ask of the shared state is the machine's, and its
//! answer leads where the machine continues: what an actor has printed, what it asks and how it ended is what
//! the meaning comes to from the actor's opening on the replies that it was given.
#![tactic(auto)]

pub mod actor;
pub mod answer;
pub mod law;
pub mod outcome;
mod place;

pub use actor::Actor;
pub use answer::may_answer;
pub use law::actors_run;
pub use outcome::Turn;
