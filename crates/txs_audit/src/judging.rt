//! What workers judge pieces by. They are generic in it, since the books of a report name a lifetime, and the proof of a thread that
//! borrows such a type doesn't know what its closure answers.

ghost use Rattle.std.specs.Prelude.{◌≡◌, ◌++◌, ℕ, List, IfOk};
ghost use Rattle.txs_audit.specs.Pieced.{IsFound, Sought, both, pieces_as, sought_of};
ghost use Rattle.txs_audit.specs.declared.pieces.Piece.{Piece};

use crate::pieces::{Piece, pieces_found};
use std::alloc::{AllocError, Global};
use txs_audit_evidence::Books;
use txs_audit_evidence::transactions::Found;
use txs_theorem_audit::halves_are_whole;

/// Judges pieces.
pub(crate) trait Judge: Sync {
    ghost sought: { Self → ℕ → List Piece → Sought };

    /// What is found of these pieces, where each loop makes at most `turns` turns.
    fn judge(&self, alloc: Global, turns: u32, pieces: &[Piece]) -> Result<Found, AllocError>
        ensures { IfOk result (IsFound (sought self.now turns pieces.now)) };

    /// What is sought of some pieces and then of others is what is sought of all.
    fn splits(&self)
        ensures { (n : ℕ) (xs ys : List Piece) → sought self.now n (xs ++ ys) ≡ both (sought self.now n xs) (sought self.now n ys) };
}

impl<'a> Judge for Books<'a> {
    ghost sought = { λ b n xs. sought_of b n (pieces_as xs) };

    fn judge(&self, alloc: Global, turns: u32, pieces: &[Piece]) -> Result<Found, AllocError>
        ensures { IfOk result (IsFound (sought_of self.now turns (pieces_as pieces.now))) }
    {
        pieces_found(alloc, self, turns, pieces)
    }

    fn splits(&self)
        ensures { (n : ℕ) (xs ys : List Piece) → sought_of self.now n (pieces_as (xs ++ ys)) ≡ both (sought_of self.now n (pieces_as xs)) (sought_of self.now n (pieces_as ys)) }
    {
        // A law that the proof uses; it does nothing when it runs.
        halves_are_whole();
    }
}
