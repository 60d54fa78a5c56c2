//! Runs of actors over what they share. `run_schedule` runs all threads and agents by turns: the source explains what each of them
//! did in the books, printed, and how it ended. The laws of many actors over what they share are those of txs_theorem_runs.
#![tactic(auto)]

mod agents;
pub mod law;
mod player;
mod report;
pub mod run;
pub mod run_error;
pub mod schedule;

pub use law::{actors_explained, actors_follow, explained_reports_are_serial, schedules_are_exact};
pub use player::{AgentPlayer, Player, Players};
pub use run_error::RunError;
pub use schedule::{
    Entries, Play, Repeated, ScheduleError, open_players, play_at, report_all, run_repeated,
    run_schedule,
};
pub use txs_machine_actor::{Actor, Turn, actors_run, may_answer};
pub use txs_world_protocol::{ActorReport, Outcome, Place, Report};
pub use txs_world_shared::SharedState;
