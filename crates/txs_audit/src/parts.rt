//! The pieces of a worker.

ghost use Rattle.std.specs.Prelude.{◌≡◌, IfOk};
ghost use Rattle.txs_audit.specs.Parted.{sought_in};
ghost use Rattle.txs_audit.specs.Pieced.{IsFound, both};

use crate::judging::Judge;
use crate::pieces::Piece;
use std::alloc::AllocError;
use std::thread::Promise;
use txs_audit_book::AuditError;
use txs_audit_evidence::transactions::Found;

/// These pieces, judged so, where each loop makes at most `turns` turns. As a promise: what a worker answers is what is found of them.
pub(crate) struct Part<'a, J: Judge> {
    pub(crate) judge: &'a J,
    pub(crate) pieces: &'a [Piece],
    pub(crate) turns: u32,
}

impl<'a, J: Judge> Clone for Part<'a, J> {
    fn clone(&self) -> Result<Part<'a, J>, AllocError> {
        Ok(*self)
    }
}

impl<'a, J: Judge> Copy for Part<'a, J> {}

impl<'a, J: Judge> Promise<Result<Found, AuditError>> for Part<'a, J> {
    ghost kept_by = { λ p r. IfOk r (IsFound (J.sought p.judge.now p.turns p.pieces.now)) };
}

impl<'a, J: Judge> Part<'a, J> {
    /// The first half of the pieces, and the others.
    pub(crate) fn halves(self) -> (Part<'a, J>, Part<'a, J>)
        ensures { sought_in J.Judge self.entry ≡ both (sought_in J.Judge result.0) (sought_in J.Judge result.1) }
    {
        let Part {
            judge,
            pieces,
            turns,
        } = self;
        judge.splits();
        let (first, others) = pieces.split_at(pieces.len() / 2);
        let one = Part {
            judge,
            pieces: first,
            turns,
        };
        let two = Part {
            judge,
            pieces: others,
            turns,
        };
        (one, two)
    }
}
