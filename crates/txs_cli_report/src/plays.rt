//! Lists of plays, read from text.

ghost use Rattle.std.specs.Prelude.{◌≡◌, ◌≤◌, ◌+◌, ◌++◌, ◌∷◌, [], List, length, replicate, Some, Ok, IfOk, IfErr, IfSome, IsNone, None, OnOk};
ghost use Rattle.std.specs.Char.{is_ascii_digit};
ghost use Rattle.std.specs.List.{list_all};
ghost use Rattle.txs_machine.specs.Schedule.{spread};
ghost use Rattle.txs_machine.specs.declared.schedule.Play.{Play as AnyPlay};
ghost use Rattle.txs_cli_report.specs.declared.plays.ListError.TheVariants.{Memory};
ghost use Rattle.txs_cli_report.specs.Plays.{number_in, ranged, thread_in, play_in, item_in, plays_in, IsListError, IsItemError};

use std::alloc::{AllocError, Global};
use txs_machine::{Play, Repeated};

/// How often an item makes its play at most.
const MOST_TIMES: u32 = 100_000;

/// Where a list has an item that says no play: the byte at which it begins, and how many bytes it has.
#[derive(Clone, Copy)]
pub struct WrongPlay {
    pub from: usize,
    pub length: usize,
}

/// Why a text isn't read as a list of plays.
#[derive(Clone, Copy)]
pub enum ListError {
    /// An item says no play.
    Wrong(WrongPlay),
    /// There was no memory for the plays.
    Memory,
}

impl From<AllocError> for ListError {
    ghost from_gives = { λ _ e. e ≡ Memory };

    fn from(_: AllocError) -> ListError {
        ListError::Memory
    }
}

/// Whether there are decimal digits alone.
fn all_digits(text: &[u8]) -> bool
    ensures { result ≡ list_all is_ascii_digit text.now }
{
    text.iter().all(|b| b.is_ascii_digit())
}

/// The number, where it is one from the least to the most.
fn ranged(least: u32, most: u32, number: u32) -> Option<u32>
    ensures value { result ≡ ranged least most number }
    ensures within { IfSome result (λ n. n ≤ most) }
{
    if least <= number && number <= most {
        Some(number)
    } else {
        None
    }
}

/// The number that these digits write, where it is one from the least to the most.
fn number_in(text: &str, least: u32, most: u32) -> Option<u32>
    ensures value { result ≡ number_in least most text.now }
    ensures within { IfSome result (λ n. n ≤ most) }
{
    if !all_digits(text.as_bytes()) {
        return None;
    }
    match text.parse::<u32>() {
        Ok(number) => ranged(least, most, number),
        Err(_) => None,
    }
}

/// The number of a thread.
fn thread_in(text: &str) -> Option<u16>
    ensures { result ≡ thread_in text.now }
{
    match number_in(text, 0, 65535) {
        Some(number) => Some(number as u16),
        None => None,
    }
}

/// The play that a text says.
fn play_in(text: &str) -> Option<Play>
    ensures { result ≡ play_in text.now }
{
    match text.strip_prefix('t') {
        Some(number) => Some(Play::Turn(thread_in(number)?)),
        None => Some(Play::Ask(thread_in(text)?)),
    }
}

/// The play that an item says, and how many times.
fn item_in(text: &str) -> Option<(Play, u32)>
    ensures said { IfSome result (λ item. item_in text.now ≡ Some (replicate item.1 item.0)) }
    ensures none { IsNone result → item_in text.now ≡ None }
{
    match text.split_once('x') {
        Some((play, times)) => Some((play_in(play)?, number_in(times, 1, MOST_TIMES)?)),
        None => Some((play_in(text)?, 1)),
    }
}

/// Appends a play with its times.
fn push_play(plays: &mut Vec<Repeated>, run: Repeated) -> Result<(), AllocError>
    ensures { OnOk result (plays.new.items ≡ plays.old.items ++ run ∷ []) }
{
    Ok(plays.push(run)?)
}

/// Appends the play of an item, which begins at this byte of its list, with the times that it is made.
fn push_item(plays: &mut Vec<Repeated>, text: &str, from: usize) -> Result<(), ListError>
    ensures said { OnOk result ((ps : List AnyPlay) × (item_in text.now ≡ Some ps) × (spread plays.new.items ≡ spread plays.old.items ++ ps)) }
    ensures kept { OnOk result (length plays.new.items ≡ length plays.old.items + 1) }
    ensures wrong { IfErr result (λ e. IsItemError from text.now e) }
{
    match item_in(text) {
        Some((play, times)) => Ok(push_play(plays, Repeated { play, times })?),
        None => Err(ListError::Wrong(WrongPlay {
            from,
            length: text.len(),
        })),
    }
}

/// The plays that a text says, each with the times that it is made in a row.
pub fn read_plays(alloc: Global, text: &str) -> Result<Vec<Repeated>, ListError>
    ensures plays { IfOk result (λ plays. plays_in text.now ≡ Ok (spread plays.items)) }
    // A play is kept once, however often it is made.
    ensures kept { IfOk result (λ plays. length plays.items ≤ length text.now) }
    ensures wrong { IfErr result (λ e. IsListError text.now e) }
{
    let mut plays = Vec::new(alloc);
    if text.is_empty() {
        return Ok(plays);
    }
    let mut rest = text;
    while let Some((item, later)) = rest.split_once(',') {
        push_item(&mut plays, item, text.len() - rest.len())?;
        rest = later;
    }
    push_item(&mut plays, rest, text.len() - rest.len())?;
    Ok(plays)
}
