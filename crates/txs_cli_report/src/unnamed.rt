//! What is told of a list of plays of which one names no actor.

ghost use Rattle.std.specs.Prelude.{IfOk};
ghost use Rattle.txs_cli_report.specs.Lent.{text_in, told_of};
ghost use Rattle.txs_cli_report.specs.Told.{NoActorTells};

use crate::WrongPlay;
use crate::explain::Script;
use crate::told::{Told, UNUSABLE, complaint, explain, list_name, list_place};
use std::alloc::{AllocError, Global};
use txs_code_meaning::Code;
use txs_machine::{Play, Repeated};
use txs_value_cell::count_agents;

/// Whose play it is.
fn player(play: Play) -> usize {
    match play {
        Play::Turn(k) | Play::Ask(k) => usize::from(k),
    }
}

/// The item of a list whose play is the first to name none of so many actors, and the byte at which it begins.
fn unnamed<'a>(turns: &'a str, plays: &[Repeated], actors: usize) -> (usize, &'a str) {
    let mut rest = turns;
    for run in plays {
        let (item, later) = rest.split_once(',').unwrap_or((rest, ""));
        if player(run.play) >= actors {
            return (turns.len().saturating_sub(rest.len()), item);
        }
        rest = later;
    }
    (0, turns)
}

/// The sentence for an item that names none of so many actors.
fn sentence_of(alloc: Global, item: &str, actors: usize) -> Result<String, AllocError> {
    match actors {
        0 => format!(in alloc; "`{item}` names no actor: there is none."),
        1 => format!(in alloc; "`{item}` names no actor: there is one, and its number is 0."),
        _ => {
            let last = actors - 1;
            format!(in alloc; "`{item}` names no actor: there are {actors}, 0 to {last}.")
        }
    }
}

/// What is told where a play of a list names no actor of the code: the line that says so, and where a file is named, which play it is.
pub fn no_actor(
    alloc: Global,
    file: Option<&str>,
    turns: &str,
    plays: &[Repeated],
    code: &Code,
) -> Result<Told, AllocError>
    ensures { IfOk result (λ t. NoActorTells (text_in file.entry) (told_of t)) }
{
    let list = Script {
        text: turns.as_bytes(),
        file: list_name(file),
    };
    let actors = code
        .threads()
        .len()
        .saturating_add(count_agents(code.cells()));
    let (from, item) = unnamed(turns, plays, actors);
    let place = list_place(WrongPlay {
        from,
        length: item.len(),
    });
    let sentence = sentence_of(alloc, item, actors)?;
    let mut told = complaint(alloc, UNUSABLE, "run failed: NoActor")?;
    explain(&mut told.errors, list, place, sentence.as_str())?;
    Ok(told)
}
