//! Runs of all threads and agents over what they share, by turns that a schedule names.

ghost use Rattle.std.specs.Prelude.{◌≡◌, ◌<◌, ◌≤◌, ◌+◌, ◌-◌, ◌++◌, ℕ, List, [], length, replicate, true, IfOk, IfErr, IfSome, OnOk, Some, None};
ghost use Rattle.txs_machine.specs.declared.schedule.Play.{Play as AnyPlay};
ghost use Rattle.txs_machine.specs.declared.schedule.ScheduleError.TheVariants.{Memory};
ghost use Rattle.txs_machine.specs.ErrorName.{schedule_error_number};
ghost use Rattle.txs_machine.specs.RunOver.{IsStateOf, books_of};
ghost use Rattle.txs_machine.specs.Agents.{actors_of, AgentsAreDone, AreExplainedBy, AreDrained};
ghost use Rattle.txs_machine.specs.Running.{ArePlaying, AreIdle, GoOnBy, IsAtRest, IsAttending, IsLive, attendants, left_all};
ghost use Rattle.txs_machine.specs.Scheduled.{most_turns, asks_from, ArePlays, AreRoundsIf, IsScheduledRun};
ghost use Rattle.txs_machine.specs.Playing.{IsBetween, AreLater, HaveEndedBefore, HaveSteps, AllEnded, IsUnended, IsReported, AreReported};
ghost use Rattle.txs_machine.specs.Plays.{IsThreadsPlay, IsAgentsPlay, IsPlayAt, AreReady, SaysOf};
ghost use Rattle.txs_machine.specs.Turning.{MayGoOn};
ghost use Rattle.txs_machine.specs.Schedule.{player, all_named, spread, AreDone, ArePlayed, HaveEnded, IsExplainedBy, HasNoReport};
ghost use Rattle.txs_theorem_runs.specs.Shared.{untouched};
ghost use Rattle.txs_world_shared.specs.SharedState.{shared_of};

use crate::agents::{is_any_working, is_due, open_next};
use crate::player::{AgentPlayer, Player, Players};
use crate::run::go_on;
use std::alloc::{AllocError, Global};
use std::fmt::{self, Debug, Display, Formatter, Write};
use thiserror::Error;
use txs_code_meaning::Verified;
use txs_machine_actor::Actor;
use txs_value_cell::count_agents;
use txs_world_protocol::{ActorReport, Outcome};
use txs_world_shared::SharedState;

/// One play of a schedule: the actor with this number, counted from 0, makes its next turn. Threads come first, and agents behind them.
#[derive(Clone, Copy)]
pub enum Play {
    /// It makes one turn, with its ask served and answered.
    Turn(u16),
    /// It makes turns up to and with its next ask, which is served and answered, or up to its end.
    Ask(u16),
}

/// A play that is made so many times in a row.
#[derive(Clone, Copy)]
pub struct Repeated {
    pub play: Play,
    pub times: u32,
}

/// The entries of a report: what all threads did, by their numbers, and what the actors of agents did, in the order of their cells. The
/// events and the newest values are those of the state that they share.
pub struct Entries {
    pub threads: Vec<ActorReport>,
    pub agents: Vec<ActorReport>,
}

// Dropped by a call that is proved here, so that no crate above proves it again.
impl Drop for Entries {
    fn drop(self) {
        let Entries { threads, agents } = self;
        drop(threads);
        drop(agents);
    }
}

impl Entries {
    /// The entries of threads, and those of agents.
    pub(crate) fn into_parts(self) -> (Vec<ActorReport>, Vec<ActorReport>)
        ensures threads { result.0 ≡ self.threads }
        ensures agents { result.1 ≡ self.agents }
    {
        let Entries { threads, agents } = self;
        (threads, agents)
    }
}

/// Why there is no report of a run.
#[derive(Clone, Copy, Error)]
pub enum ScheduleError {
    /// A play names no actor.
    #[error("NoActor")]
    NoActor,
    /// There was no memory for the actors or for the report.
    #[error("Memory")]
    Memory,
}

impl Debug for ScheduleError {
    fn fmt<W: Write>(&self, f: &mut Formatter<W>) -> fmt::Result {
        Display::fmt(self, f)
    }
}

impl ScheduleError {
    /// The number under which the reason is reported: 53 out of memory, 54 no such actor.
    pub fn number(self) -> u8
        ensures { result ≡ schedule_error_number self }
    {
        match self {
            ScheduleError::NoActor => 54,
            ScheduleError::Memory => 53,
        }
    }
}

impl From<AllocError> for ScheduleError {
    ghost from_gives = { λ _ e. e ≡ Memory };

    fn from(_: AllocError) -> ScheduleError {
        ScheduleError::Memory
    }
}

impl Play {
    /// Whose play it is.
    fn player(self) -> u16
        ensures { result ≡ player self }
    {
        match self {
            Play::Turn(k) | Play::Ask(k) => k,
        }
    }

    /// How many turns it is at most.
    fn most_turns(self) -> u64
        ensures { result ≡ most_turns self }
    {
        match self {
            Play::Turn(_) => 1,
            Play::Ask(_) => u64::MAX,
        }
    }
}

/// Whether each play names one of so many actors.
fn are_named(plays: &[Play], actors: u16) -> bool
    ensures { result ≡ all_named actors plays.now }
{
    for play in plays {
        if play.player() >= actors {
            return false;
        }
    }
    true
}

/// Whether a play that is made so many times names one of so many actors, where it is made at all.
fn is_named(run: &Repeated, actors: u16) -> bool
    ensures { result ≡ all_named actors (replicate run.now.times run.now.play) }
{
    if run.times == 0 {
        return true;
    }
    run.play.player() < actors
}

/// Whether each of these plays names one of so many actors.
fn are_all_named(plays: &[Repeated], actors: u16) -> bool
    ensures { result ≡ all_named actors (spread plays.now) }
{
    for run in plays {
        if !is_named(run, actors) {
            return false;
        }
    }
    true
}

/// These plays, each made once.
fn each_once(alloc: Global, plays: &[Play]) -> Result<Vec<Repeated>, AllocError>
    ensures { IfOk result (λ once. spread once.items ≡ plays.now) }
{
    let mut once = Vec::new(alloc);
    for play in plays {
        once.push(Repeated {
            play: *play,
            times: 1,
        })?;
    }
    Ok(once)
}

/// Adds the actors of all threads and behind them of the agents, in the order of the cells, which may make so many steps, where there was none and nothing was
/// done yet.
pub fn open_players(
    alloc: Global,
    code: &Verified,
    threads: u16,
    max_steps: u64,
    players: &mut Players,
) -> Result<(), AllocError>
    requires many { threads ≡ length code.now.threads }
    requires few { length code.now.threads + length code.now.cells ≤ 65535 }
    requires no_threads { players.old.threads.items ≡ [] }
    requires no_agents { players.old.agents.items ≡ [] }
    ensures { OnOk result (AreReady code.now max_steps threads players.new) }
{
    // A step of the proof, which does nothing when it runs.
    let (_functions, _threads) = code.rooms();
    players.threads.reserve(threads as usize)?;
    for k in 0..threads {
        let actor = Actor::thread(alloc, code, k, max_steps)?;
        players.threads.push_reserved(Player {
            actor,
            trace: Vec::new(alloc),
        });
    }
    let cells = code.code().cells();
    for cell in 0..cells.len() {
        open_next(alloc, code, &mut players.agents, cell, threads, max_steps)?;
    }
    Ok(())
}

/// A play of an actor: up to so many turns, up to its end or an ask, which is served. One that has ended stays as it is.
fn play_actor(
    player: &mut Player,
    code: &Verified,
    shared: &mut SharedState,
    k: u16,
    budget: u64,
    max_steps: u64,
)
    requires some { 0 < budget }
    requires of { IsStateOf code.now shared.old }
    requires between { IsBetween code.now k max_steps (books_of shared.old) player.old }
    ensures { IsThreadsPlay code.now k max_steps budget shared.old player.old shared.new player.new }
{
    let ended = player.actor.outcome().is_some();
    if ended {
        return;
    }
    // Steps of the proof, which do nothing when they run.
    let _own_cells = code.code();
    go_on(player, code, shared, budget);
}

/// A play of an agent's actor, in the same way. One for which nothing waits isn't asked, unless it has no step left. All that it may come to ask it may ask.
#[inline(never)]
fn play_agent(
    agent: &mut AgentPlayer,
    code: &Verified,
    shared: &mut SharedState,
    k: u16,
    budget: u64,
    max_steps: u64,
)
    requires some { 0 < budget }
    requires of { IsStateOf code.now shared.old }
    requires attending { IsAttending code.now agent.old.agent k max_steps agent.old }
    requires may { agent.old.player.actor.outcome ≡ None → MayGoOn code.now shared.old budget agent.old.player.actor }
    requires rests { IsAtRest code.now k budget shared.old agent.old }
    ensures { IsAgentsPlay code.now k max_steps budget shared.old agent.old shared.new agent.new }
{
    if !is_due(agent, shared, max_steps) {
        return;
    }
    go_on(&mut agent.player, code, shared, budget);
}

/// A play of one of the actors, by its number: up to so many turns, up to its end or an ask, which is served.
pub fn play_at(
    players: &mut Players,
    code: &Verified,
    shared: &mut SharedState,
    k: u16,
    budget: u64,
    max_steps: u64,
)
    requires there { k < length players.old.threads.items + length players.old.agents.items }
    requires some { 0 < budget }
    requires of { IsStateOf code.now shared.old }
    requires playing { ArePlaying code.now max_steps shared.old players.old }
    ensures { IsPlayAt code.now max_steps k budget shared.old players.old shared.new players.new }
{
    // A step of the proof, which does nothing when it runs.
    let _own_cells = code.code();
    let (_functions, _threads) = code.rooms();
    let threads = players.threads.len();
    let at = k as usize;
    if at < threads {
        play_actor(&mut players.threads[at], code, shared, k, budget, max_steps);
    } else {
        play_agent(
            &mut players.agents[at - threads],
            code,
            shared,
            k,
            budget,
            max_steps,
        );
    }
}

/// A play, so many times in a row.
fn play_times(
    players: &mut Players,
    code: &Verified,
    shared: &mut SharedState,
    run: Repeated,
    max_steps: u64,
)
    requires named { 0 < run.times → player run.play < length players.old.threads.items + length players.old.agents.items }
    requires of { IsStateOf code.now shared.old }
    requires playing { ArePlaying code.now max_steps shared.old players.old }
    ensures of { IsStateOf code.now shared.new }
    ensures plays { GoOnBy code.now max_steps (ArePlays code.now max_steps (replicate run.times run.play)) shared.old players.old shared.new players.new }
    ensures many { length players.new.threads.items ≡ length players.old.threads.items }
    ensures agents { length players.new.agents.items ≡ length players.old.agents.items }
    ensures steps { (before : List AnyPlay) → HaveSteps before 0 players.old.threads.items → HaveSteps (before ++ replicate run.times run.play) 0 players.new.threads.items }
{
    let number = run.play.player();
    let budget = run.play.most_turns();
    for made in 0..run.times {
        play_at(players, code, shared, number, budget, max_steps);
    }
}

/// These plays, one after the other.
fn play_all(
    players: &mut Players,
    code: &Verified,
    shared: &mut SharedState,
    plays: &[Repeated],
    max_steps: u64,
)
    requires named { all_named (length players.old.threads.items + length players.old.agents.items) (spread plays.now) ≡ true }
    requires of { IsStateOf code.now shared.old }
    requires playing { ArePlaying code.now max_steps shared.old players.old }
    ensures of { IsStateOf code.now shared.new }
    ensures plays { GoOnBy code.now max_steps (ArePlays code.now max_steps (spread plays.now)) shared.old players.old shared.new players.new }
    ensures many { length players.new.threads.items ≡ length players.old.threads.items }
    ensures agents { length players.new.agents.items ≡ length players.old.agents.items }
    ensures steps { HaveSteps (spread plays.now) 0 players.new.threads.items }
{
    for run in plays {
        play_times(players, code, shared, *run, max_steps);
    }
}

/// An ask of each of the actors from one on.
fn play_rest(
    players: &mut Players,
    code: &Verified,
    shared: &mut SharedState,
    from: u16,
    actors: u16,
    max_steps: u64,
)
    requires many { actors ≡ length players.old.threads.items + length players.old.agents.items }
    requires within { from ≤ actors }
    requires of { IsStateOf code.now shared.old }
    requires playing { ArePlaying code.now max_steps shared.old players.old }
    ensures of { IsStateOf code.now shared.new }
    ensures plays { GoOnBy code.now max_steps (ArePlays code.now max_steps (asks_from from (actors - from))) shared.old players.old shared.new players.new }
    ensures many { length players.new.threads.items ≡ length players.old.threads.items }
    ensures agents { length players.new.agents.items ≡ length players.old.agents.items }
    ensures later { AreLater players.old.threads.items players.new.threads.items }
    ensures less { (k : ℕ) → from ≤ k → IsLive code.now shared.old players.old k → left_all players.new < left_all players.old }
{
    for k in from..actors {
        play_at(players, code, shared, k, u64::MAX, max_steps);
    }
}

/// The first thread whose actor hasn't ended.
fn first_unended(players: &[Player]) -> Option<usize>
    ensures there { IfSome result (λ k. k < length players.now) }
    ensures unended { IfSome result (λ k. IsUnended k players.now) }
    ensures before { IfSome result (λ k. HaveEndedBefore k players.now) }
    ensures ended { result ≡ None → AllEnded players.now }
{
    for k in 0..players.len() {
        if players[k].actor.outcome().is_none() {
            return Some(k);
        }
    }
    None
}

/// The first actor of a round, before which all have ended: that of the first thread that hasn't ended, else that of the first agent, where there is one that has
/// something to do. There is none where no further round is made.
fn first_live(players: &Players, code: &Verified, shared: &SharedState) -> Option<u16>
    requires of { IsStateOf code.now shared.now }
    requires few { length players.now.threads.items + length players.now.agents.items ≤ 65535 }
    requires playing { (limit : ℕ) × ArePlaying code.now limit shared.now players.now }
    ensures there { IfSome result (λ k. k ≤ length players.now.threads.items) }
    ensures live { IfSome result (λ k. (j : ℕ) × (k ≤ j) × IsLive code.now shared.now players.now j) }
    ensures before { IfSome result (λ k. HaveEndedBefore k players.now.threads.items) }
    ensures ended { result ≡ None → AllEnded players.now.threads.items }
    ensures idle { result ≡ None → AreIdle code.now shared.now players.now.agents.items }
{
    if let Some(k) = first_unended(players.threads.as_slice()) {
        return Some(k as u16);
    }
    if is_any_working(players.agents.as_slice(), code, shared) {
        return Some(players.threads.len() as u16);
    }
    None
}

/// Where they are wanted, rounds of one ask of each actor, in ascending order, until all threads have ended and no agent whose actor hasn't has
/// something to do. Each round ends an actor or makes a step at least, and none may make more than its limit.
fn play_rounds(
    players: &mut Players,
    code: &Verified,
    shared: &mut SharedState,
    actors: u16,
    max_steps: u64,
    wanted: bool,
)
    requires many { actors ≡ length players.old.threads.items + length players.old.agents.items }
    requires of { IsStateOf code.now shared.old }
    requires playing { ArePlaying code.now max_steps shared.old players.old }
    ensures of { IsStateOf code.now shared.new }
    ensures plays { GoOnBy code.now max_steps (AreRoundsIf code.now max_steps wanted) shared.old players.old shared.new players.new }
    ensures later { AreLater players.old.threads.items players.new.threads.items }
    ensures ended { wanted ≡ true → AllEnded players.new.threads.items }
    ensures idle { wanted ≡ true → AreIdle code.now shared.new players.new.agents.items }
{
    if !wanted {
        return;
    }
    while let Some(k) = first_live(players, code, shared) {
        play_rest(players, code, shared, k, actors, max_steps);
    }
}

/// What an actor did, as a report says: its bytes and places are moved there.
pub(crate) fn report_of(code: &Verified, player: Player) -> ActorReport
    ensures { IsReported code.now player result }
{
    let Player { actor, trace } = player;
    let outcome = actor.outcome();
    let steps = actor.steps();
    let place = actor.stopped_at(code);
    ActorReport {
        outcome,
        printed: actor.into_printed(),
        trace,
        steps,
        place,
    }
}

/// What the actors of threads did.
fn report_threads(
    alloc: Global,
    code: &Verified,
    players: Vec<Player>,
) -> Result<Vec<ActorReport>, AllocError>
    ensures { IfOk result (λ rans. AreReported code.now players.items rans.items) }
{
    let mut rans = Vec::with_capacity(alloc, players.len())?;
    for player in players {
        rans.push(report_of(code, player))?;
    }
    Ok(rans)
}

/// What the actors of agents did.
fn report_agents(
    alloc: Global,
    code: &Verified,
    agents: Vec<AgentPlayer>,
) -> Result<Vec<ActorReport>, AllocError>
    ensures { IfOk result (λ rans. AreReported code.now (attendants agents.items) rans.items) }
{
    let mut rans = Vec::with_capacity(alloc, agents.len())?;
    for agent in agents {
        rans.push(report_of(code, agent.player))?;
    }
    Ok(rans)
}

/// What all actors did.
///
/// # Errors
/// `AllocError` where there was no memory for the entries.
pub fn report_all(alloc: Global, code: &Verified, players: Players) -> Result<Entries, AllocError>
    ensures threads { IfOk result (λ report. AreReported code.now players.threads.items report.threads.items) }
    ensures agents { IfOk result (λ report. AreReported code.now (attendants players.agents.items) report.agents.items) }
{
    let threads = report_threads(alloc, code, players.threads)?;
    let agents = report_agents(alloc, code, players.agents)?;
    Ok(Entries { threads, agents })
}

/// How many actors there are: the threads, and behind them the agents.
fn count_actors(code: &Verified, threads: u16) -> u16
    requires many { threads ≡ length code.now.threads }
    requires few { length code.now.threads + length code.now.cells ≤ 65535 }
    ensures { result ≡ actors_of code.now }
{
    let cells = code.code().cells();
    let agents = count_agents(cells);
    threads + agents as u16
}

/// Runs all actors, of which there are so many, over a state in which nothing was done yet, by plays that name some of them.
fn run_all(
    alloc: Global,
    code: &Verified,
    plays: &[Repeated],
    actors: u16,
    max_steps: u64,
    rounds: bool,
    shared: &mut SharedState,
) -> Result<Entries, AllocError>
    requires of { IsStateOf code.now shared.old }
    requires unused { shared_of shared.old ≡ untouched code.now.cells }
    requires few { length code.now.threads + length code.now.cells ≤ 65535 }
    requires many { actors ≡ actors_of code.now }
    requires named { all_named actors (spread plays.now) ≡ true }
    ensures of { IsStateOf code.now shared.new }
    ensures says { IfOk result (λ report. SaysOf code.now max_steps (spread plays.now) rounds shared.new report) }
{
    // A step of the proof, which does nothing when it runs.
    let (_functions, _threads) = code.rooms();
    let mut players = Players {
        threads: Vec::new(alloc),
        agents: Vec::new(alloc),
    };
    open_players(alloc, code, shared.threads(), max_steps, &mut players)?;
    play_all(&mut players, code, shared, plays, max_steps);
    play_rounds(&mut players, code, shared, actors, max_steps, rounds);
    // A step of the proof, which does nothing when it runs.
    let _stands = shared.events();
    report_all(alloc, code, players)
}

/// Runs all threads and agents of the code over a state in which nothing was done yet: the plays of a schedule in their order, each as many times as it says, and with `rounds` behind them one ask of
/// each actor, in ascending order, again and again, until all threads have ended and each agent whose actor hasn't has failed or has nothing to do. A play of an actor
/// that has ended does nothing. None makes more than `max_steps` steps: one that hasn't ended and is played then ends. Threads have the first numbers, and agents those behind, in the order of their cells.
///
/// # Errors
/// `NoActor` where a play names no actor, and nothing was run; `Memory` where there was no memory for the actors or for the report: what
/// was done until then stays in the shared state, and nothing more is said of it.
pub fn run_repeated(
    alloc: Global,
    code: &Verified,
    plays: &[Repeated],
    max_steps: u64,
    rounds: bool,
    shared: &mut SharedState,
) -> Result<Entries, ScheduleError>
    requires of { IsStateOf code.now shared.old }
    requires unused { shared_of shared.old ≡ untouched code.now.cells }
    requires few { length code.now.threads + length code.now.cells ≤ 65535 }
    ensures of { IsStateOf code.now shared.new }
    ensures named { IfOk result (λ report. all_named (actors_of code.now) (spread plays.now) ≡ true) }
    ensures done { IfOk result (λ report. AreDone code.now max_steps (books_of shared.new) report.threads.items) }
    ensures played { IfOk result (λ report. ArePlayed (spread plays.now) report.threads.items) }
    ensures scheduled { IfOk result (λ report. IsScheduledRun code.now max_steps (spread plays.now) rounds shared.new report.threads.items report.agents.items) }
    ensures ended { IfOk result (λ report. rounds ≡ true → HaveEnded report.threads.items) }
    ensures explained { IfOk result (λ report. IsExplainedBy code.now (shared_of shared.new) report.threads.items) }
    ensures refused { IfErr result (λ e. HasNoReport code.now (spread plays.now) shared.old shared.new e) }
    ensures agents { IfOk result (λ report. AgentsAreDone code.now max_steps (books_of shared.new) report.agents.items) }
    ensures drained { IfOk result (λ report. rounds ≡ true → AreDrained code.now (shared_of shared.new) report.agents.items) }
    ensures all_explained { IfOk result (λ report. AreExplainedBy code.now (shared_of shared.new) report.threads.items report.agents.items) }
{
    let actors = count_actors(code, shared.threads());
    if !are_all_named(plays, actors) {
        return Err(ScheduleError::NoActor);
    }
    let report = run_all(alloc, code, plays, actors, max_steps, rounds, shared)?;
    Ok(report)
}

/// The same by a list of plays, each of which is made once.
///
/// # Errors
/// As `run_repeated`.
pub fn run_schedule(
    alloc: Global,
    code: &Verified,
    plays: &[Play],
    max_steps: u64,
    rounds: bool,
    shared: &mut SharedState,
) -> Result<Entries, ScheduleError>
    requires of { IsStateOf code.now shared.old }
    requires unused { shared_of shared.old ≡ untouched code.now.cells }
    requires few { length code.now.threads + length code.now.cells ≤ 65535 }
    ensures of { IsStateOf code.now shared.new }
    ensures named { IfOk result (λ report. all_named (actors_of code.now) plays.now ≡ true) }
    ensures done { IfOk result (λ report. AreDone code.now max_steps (books_of shared.new) report.threads.items) }
    ensures played { IfOk result (λ report. ArePlayed plays.now report.threads.items) }
    ensures scheduled { IfOk result (λ report. IsScheduledRun code.now max_steps plays.now rounds shared.new report.threads.items report.agents.items) }
    ensures ended { IfOk result (λ report. rounds ≡ true → HaveEnded report.threads.items) }
    ensures explained { IfOk result (λ report. IsExplainedBy code.now (shared_of shared.new) report.threads.items) }
    ensures refused { IfErr result (λ e. HasNoReport code.now plays.now shared.old shared.new e) }
    ensures agents { IfOk result (λ report. AgentsAreDone code.now max_steps (books_of shared.new) report.agents.items) }
    ensures drained { IfOk result (λ report. rounds ≡ true → AreDrained code.now (shared_of shared.new) report.agents.items) }
    ensures all_explained { IfOk result (λ report. AreExplainedBy code.now (shared_of shared.new) report.threads.items report.agents.items) }
{
    let actors = count_actors(code, shared.threads());
    if !are_named(plays, actors) {
        return Err(ScheduleError::NoActor);
    }
    let once = each_once(alloc, plays)?;
    let report = run_all(alloc, code, &once, actors, max_steps, rounds, shared)?;
    Ok(report)
}
