//! A run by plays and then in rounds, of which is kept how many steps each play made.

ghost use Rattle.std.specs.Prelude.{◌≡◌, ◌≤◌, ◌<◌, ◌+◌, length, IfOk, IsTrue, OnOk};
ghost use Rattle.txs_machine.specs.Agents.{actors_of};
ghost use Rattle.txs_cli_events.specs.Staged.{IsStaged, AreMade};

use crate::check::entry_at;
use crate::stage::Stage;
use std::alloc::AllocError;
use txs_code_meaning::Verified;
use txs_machine::{ActorReport, Play, Player, Repeated};
use txs_world_protocol::Report;

/// The steps of one actor that a play made.
#[derive(Clone, Copy)]
pub(crate) struct Made {
    pub(crate) actor: u16,
    pub(crate) steps: u64,
}

/// Makes a play, and keeps how many steps it made, if any. The answer is whether it made any.
fn make(
    stage: &mut Stage,
    code: &Verified,
    k: u16,
    budget: u64,
    max_steps: u64,
    made: &mut Vec<Made>,
) -> Result<bool, AllocError>
    requires some { 0 < budget }
    requires there { k < actors_of code.now }
    requires staged { IsStaged code.now max_steps stage.old }
    requires made { AreMade code.now made.old.items }
    ensures staged { OnOk result (IsStaged code.now max_steps stage.new) }
    ensures made { OnOk result (AreMade code.now made.new.items) }
{
    let before = stage.player(k).actor.steps();
    stage.play(code, k, budget, max_steps);
    let steps = stage.player(k).actor.steps().saturating_sub(before);
    if steps == 0 {
        return Ok(false);
    }
    made.push(Made { actor: k, steps })?;
    Ok(true)
}

/// Whose play it is.
fn actor_of(play: Play) -> u16 {
    match play {
        Play::Turn(k) | Play::Ask(k) => k,
    }
}

/// How many turns it is at most.
fn most_turns(play: Play) -> u64
    ensures { 0 < result }
{
    match play {
        Play::Turn(_) => 1,
        Play::Ask(_) => u64::MAX,
    }
}

/// Makes a play so many times in a row, up to one that makes no step: those behind it would make none either. The answer is whether the play names
/// an actor, or is never made.
fn make_times(
    stage: &mut Stage,
    code: &Verified,
    run: Repeated,
    max_steps: u64,
    made: &mut Vec<Made>,
) -> Result<bool, AllocError>
    requires staged { IsStaged code.now max_steps stage.old }
    requires made { AreMade code.now made.old.items }
    ensures staged { OnOk result (IsStaged code.now max_steps stage.new) }
    ensures made { OnOk result (AreMade code.now made.new.items) }
{
    if run.times == 0 {
        return Ok(true);
    }
    let k = actor_of(run.play);
    if k >= stage.actors() {
        return Ok(false);
    }
    let budget = most_turns(run.play);
    for _i in 0..run.times {
        if !make(stage, code, k, budget, max_steps, made)? {
            return Ok(true);
        }
    }
    Ok(true)
}

/// Makes these plays, one after the other. The answer is whether each that is made names an actor.
pub(crate) fn make_plays(
    stage: &mut Stage,
    code: &Verified,
    plays: &[Repeated],
    max_steps: u64,
    made: &mut Vec<Made>,
) -> Result<bool, AllocError>
    requires staged { IsStaged code.now max_steps stage.old }
    requires made { AreMade code.now made.old.items }
    ensures staged { OnOk result (IsStaged code.now max_steps stage.new) }
    ensures made { OnOk result (AreMade code.now made.new.items) }
{
    for run in plays {
        if !make_times(stage, code, *run, max_steps, made)? {
            return Ok(false);
        }
    }
    Ok(true)
}

/// An ask of each actor, in ascending order.
fn make_round(
    stage: &mut Stage,
    code: &Verified,
    max_steps: u64,
    made: &mut Vec<Made>,
) -> Result<(), AllocError>
    requires staged { IsStaged code.now max_steps stage.old }
    requires made { AreMade code.now made.old.items }
    ensures staged { OnOk result (IsStaged code.now max_steps stage.new) }
    ensures made { OnOk result (AreMade code.now made.new.items) }
{
    let actors = stage.actors();
    for k in 0..actors {
        make(stage, code, k, u64::MAX, max_steps, made)?;
    }
    Ok(())
}

/// Whether an actor has made so many steps and ended so as an entry says.
fn has_come_to(player: &Player, ran: &ActorReport) -> bool {
    player.actor.steps() == ran.steps && player.actor.outcome() == ran.outcome
}

/// Whether there are as many threads and agents as a report names.
fn are_as_many(stage: &Stage, report: &Report) -> bool
    ensures { IsTrue result → length stage.now.players.threads.items + length stage.now.players.agents.items ≡ length report.now.threads.items + length report.now.agents.items }
{
    if stage.players.threads.len() != report.threads.len() {
        return false;
    }
    stage.players.agents.len() == report.agents.len()
}

/// Whether all actors have come to where a report has them.
fn have_come_to(stage: &Stage, report: &Report) -> bool
    requires { length stage.now.players.threads.items + length stage.now.players.agents.items ≤ 65535 }
    ensures { IsTrue result → length stage.now.players.threads.items + length stage.now.players.agents.items ≡ length report.now.threads.items + length report.now.agents.items }
{
    if !are_as_many(stage, report) {
        return false;
    }
    for k in 0..stage.actors() {
        if !has_come_to(stage.player(k), entry_at(report, usize::from(k))) {
            return false;
        }
    }
    true
}

/// Makes rounds until all actors have come to where a report has them, or none makes a step. The answer is whether they have.
pub(crate) fn make_rounds(
    stage: &mut Stage,
    code: &Verified,
    report: &Report,
    max_steps: u64,
    made: &mut Vec<Made>,
) -> Result<bool, AllocError>
    requires staged { IsStaged code.now max_steps stage.old }
    requires made { AreMade code.now made.old.items }
    ensures staged { OnOk result (IsStaged code.now max_steps stage.new) }
    ensures made { OnOk result (AreMade code.now made.new.items) }
    ensures one_each { IfOk result (λ yes. IsTrue yes → length stage.new.players.threads.items + length stage.new.players.agents.items ≡ length report.now.threads.items + length report.now.agents.items) }
{
    for _i in 0..u64::MAX {
        if have_come_to(stage, report) {
            return Ok(true);
        }
        let before = made.len();
        make_round(stage, code, max_steps, made)?;
        if made.len() == before {
            return Ok(have_come_to(stage, report));
        }
    }
    Ok(false)
}

/// Whether an actor has printed what an entry says.
fn has_printed(player: &Player, ran: &ActorReport) -> bool {
    player.actor.printed() == ran.printed.as_slice()
}

/// Whether all actors have printed what a report says.
pub(crate) fn have_printed(stage: &Stage, report: &Report) -> bool
    requires few { length stage.now.players.threads.items + length stage.now.players.agents.items ≤ 65535 }
    requires one_each { length stage.now.players.threads.items + length stage.now.players.agents.items ≡ length report.now.threads.items + length report.now.agents.items }
{
    for k in 0..stage.actors() {
        if !has_printed(stage.player(k), entry_at(report, usize::from(k))) {
            return false;
        }
    }
    true
}
