//! A run by the steps that plays made of it, whose events are noted.

ghost use Rattle.std.specs.Prelude.{◌<◌, OnOk};
ghost use Rattle.txs_machine.specs.Agents.{actors_of};
ghost use Rattle.txs_cli_events.specs.Staged.{IsStaged, AreMade};

use crate::Noted;
use crate::making::Made;
use crate::stage::Stage;
use std::alloc::AllocError;
use txs_code_meaning::Verified;
use txs_machine::{Place, Player};

/// The last place of an actor's trace, if it has more than so many.
fn added(player: &Player, before: usize) -> Option<Place> {
    let many = player.trace.len();
    if many <= before {
        return None;
    }
    Some(player.trace[many - 1])
}

/// All steps of a play but the last.
fn play_up_to_last(stage: &mut Stage, code: &Verified, made: Made, max_steps: u64)
    requires there { made.actor < actors_of code.now }
    requires staged { IsStaged code.now max_steps stage.old }
    ensures { IsStaged code.now max_steps stage.new }
{
    if made.steps < 2 {
        return;
    }
    stage.play(code, made.actor, made.steps - 1, max_steps);
}

/// Makes the steps of a play, and notes the event that it adds, if it does. Only its last step may, since a play is over behind what an actor asks.
fn list_play(
    stage: &mut Stage,
    code: &Verified,
    made: Made,
    max_steps: u64,
    notes: &mut Vec<Noted>,
) -> Result<(), AllocError>
    requires there { made.actor < actors_of code.now }
    requires staged { IsStaged code.now max_steps stage.old }
    ensures { OnOk result (IsStaged code.now max_steps stage.new) }
{
    play_up_to_last(stage, code, made, max_steps);
    let player = stage.player(made.actor);
    let at = player.actor.next_place(code);
    let printed = player.actor.printed().len();
    let before = player.trace.len();
    stage.play(code, made.actor, 1, max_steps);
    if let Some(event) = added(stage.player(made.actor), before) {
        notes.push(Noted {
            actor: made.actor,
            event,
            at,
            printed,
        })?;
    }
    Ok(())
}

/// Makes the steps of these plays, one after the other, and notes the events that they add.
pub(crate) fn list_plays(
    stage: &mut Stage,
    code: &Verified,
    made: &[Made],
    max_steps: u64,
    notes: &mut Vec<Noted>,
) -> Result<(), AllocError>
    requires staged { IsStaged code.now max_steps stage.old }
    requires made { AreMade code.now made.now }
{
    for play in made {
        list_play(stage, code, *play, max_steps, notes)?;
    }
    Ok(())
}
