//! Bounds of turns: a small one first, up to the one that is asked for.

ghost use Rattle.std.specs.Prelude.{◌≡◌, ◌≤◌, ◌<◌, ◌⊎◌, IsFalse, IsTrue};
ghost use Rattle.txs_tree_eval.specs.declared.meaning.Needs.TheVariants.{Turns};
ghost use Rattle.txs_theorem_audit.specs.Stays.{IsDecided};
ghost use Rattle.txs_audit_book.specs.Judged.{as_found};

use crate::finding::Finding;
use txs_tree_eval::Needs;

/// The first bound: one turn, where one is allowed.
pub fn first_bound(turns: u32) -> u32
    ensures { result ≤ turns }
{
    if turns == 0 {
        return 0;
    }
    1
}

/// The bound behind this one: twice as many turns, but no more than are allowed.
pub fn next_bound(bound: u32, turns: u32) -> u32
    requires { bound < turns }
    ensures more { bound < result }
    ensures most { result ≤ turns }
{
    if bound == 0 {
        return 1;
    }
    if bound < turns - bound {
        return bound + bound;
    }
    turns
}

/// Whether this was found only for want of turns, and more of them are allowed than this bound.
pub fn is_short(finding: Finding, bound: u32, turns: u32) -> bool
    requires { bound ≤ turns }
    ensures more { IsTrue result → bound < turns }
    ensures enough { IsFalse result → (bound ≡ turns) ⊎ IsDecided (as_found finding) }
{
    match finding {
        Finding::Short(_, _) => bound < turns,
        _ => false,
    }
}

/// Whether an evaluation of which this is answered wants turns, and more of them are allowed than this bound.
pub fn wants_turns(needs: &Needs, bound: u32, turns: u32) -> bool
    requires { bound ≤ turns }
    ensures more { IsTrue result → bound < turns }
    ensures enough { IsFalse result → (bound ≡ turns) ⊎ (needs.now ≡ Turns → ⊥) }
{
    match needs {
        Needs::Turns => bound < turns,
        _ => false,
    }
}
