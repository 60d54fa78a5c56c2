//! Where a node is: in a transaction or outside, and what a recur meets there.

ghost use Rattle.std.specs.Prelude.{◌≡◌};
ghost use Rattle.txs_check.specs.Refused.{inner, across, only, recurs, placed};

use crate::error::{CheckError, CheckErrorKind};
use txs_value_cell::Standing;
use txs_value_data::Span;

/// Where a node is: in a function outside every transaction of it, in a future outside every transaction,
/// or in a transaction.
#[derive(Clone, Copy)]
pub enum Zone {
    InFunction,
    InFuture,
    InDosync,
}

/// What a recur meets: no loop or function at all, one with a `dosync` between, or one of so many values, in
/// whose tail position it stands or not.
#[derive(Clone, Copy)]
pub enum Target {
    Nowhere,
    Across,
    Nearest(usize, bool),
}

impl Target {
    /// What a recur meets in a part that isn't in tail position.
    pub fn inner(self) -> Target
        ensures { result ≡ inner self }
    {
        match self {
            Target::Nowhere => Target::Nowhere,
            Target::Across => Target::Across,
            Target::Nearest(count, _) => Target::Nearest(count, false),
        }
    }

    /// What a recur meets in the body of a `dosync`.
    pub fn across(self) -> Target
        ensures { result ≡ across self }
    {
        match self {
            Target::Nowhere => Target::Nowhere,
            Target::Across => Target::Across,
            Target::Nearest(_, _) => Target::Across,
        }
    }

    /// Whether a recur of so many values may be here.
    pub fn check_recur(self, count: usize, at: Span) -> Result<(), CheckError>
        ensures { result ≡ recurs self count at }
    {
        match self {
            Target::Nowhere => only(false, CheckErrorKind::RecurNotTail, at),
            Target::Across => only(false, CheckErrorKind::RecurAcrossDosync, at),
            Target::Nearest(values, tail) => {
                only(tail, CheckErrorKind::RecurNotTail, at)?;
                only(values == count, CheckErrorKind::RecurCount, at)
            }
        }
    }
}

impl Zone {
    /// Whether what is placed so may be here.
    pub fn check_standing(self, standing: Standing, at: Span) -> Result<(), CheckError>
        ensures { result ≡ placed self standing at }
    {
        match self {
            Zone::InFunction => Ok(()),
            Zone::InFuture => only(standing.allows(false), CheckErrorKind::InsideOnly, at),
            Zone::InDosync => only(standing.allows(true), CheckErrorKind::OutsideOnly, at),
        }
    }
}

/// Nothing is refused where this holds alone.
pub fn only(holds: bool, kind: CheckErrorKind, at: Span) -> Result<(), CheckError>
    ensures { result ≡ only holds kind at }
{
    if holds {
        Ok(())
    } else {
        Err(CheckError { kind, at })
    }
}
