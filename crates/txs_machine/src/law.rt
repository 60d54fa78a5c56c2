//! What actors have done is what their code means; the commits of explained reports are serial.

ghost use Rattle.txs_machine.specs.Followed.{ActorsFollow, ActorsExplained};
ghost use Rattle.txs_machine.specs.Scheduled.{SchedulesAreExact};
ghost use Rattle.txs_machine.specs.Serial.{CoveredAreSerial, ReportsAreSerial};

/// An actor is where the machine's meaning comes to, from the opening of its thread: so many turns are
/// so many instructions. Where the actor was stopped, the machine may still hold a validator's answer at which the
/// instruction has looked. Only the instruction that asks for an answer looks at it.
pub fn actors_follow()
    ensures { ActorsFollow }
{}

/// Where the code follows a thread's source, an actor of it has printed what the source prints, and ends
/// as the source does.
pub fn actors_explained()
    ensures { ActorsExplained }
{}

/// In a report that a sound program with right marks explains, each covered commit is serial. Where all commits are covered, the
/// transactions of what explains the threads and agents do what the commits say, run one after the other in the order of the store's book.
pub fn explained_reports_are_serial()
    ensures each { CoveredAreSerial }
    ensures all { ReportsAreSerial }
{}

/// A schedule has one run. Where no entry of two reports ended since a growth of memory was refused, both are of the same turns,
/// leave the same state, and say the same of each actor.
pub fn schedules_are_exact()
    ensures { SchedulesAreExact }
{}
