//! What an exploration says of runs by workers. Nothing here runs.

ghost use Rattle.txs_explore.specs.Laws.{WorkersAreListed};

use crate::{below_is_within, ends_are_over};
use txs_theorem_runs::law::{opening_holds, play_holds};
use txs_world::law::serve_keeps;

/// Where the ways that are listed are all, each run by workers that came to its end below the limit has one of their endings.
pub fn workers_are_listed()
    ensures { WorkersAreListed }
{
    ends_are_over();
    below_is_within();
    serve_keeps();
    opening_holds();
    play_holds();
}
