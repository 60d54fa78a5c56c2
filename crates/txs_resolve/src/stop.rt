//! Why the resolver stops.

ghost use Rattle.std.specs.Prelude.{◌≡◌};
ghost use Rattle.txs_resolve.specs.declared.stop.Stop.TheVariants.{Refused, Memory};

use std::alloc::{AllocError, AllocFailed};
use txs_resolve_expand::{ResolveError, ResolveErrorKind};
use txs_value_data::Span;

/// Why the resolver stops: a refusal of the forms, or out of memory.
#[derive(Clone, Copy)]
pub enum Stop {
    Refused(ResolveError),
    Memory,
}

/// The stop for this reason at this place.
pub fn refused(kind: ResolveErrorKind, at: Span) -> Stop
    ensures { result ≡ Refused (record { kind = kind; at = at }) }
{
    Stop::Refused(ResolveError { kind, at })
}

impl From<ResolveError> for Stop {
    ghost from_gives = { λ error e. e ≡ Refused error };

    fn from(error: ResolveError) -> Stop {
        Stop::Refused(error)
    }
}

impl From<AllocError> for Stop {
    ghost from_gives = { λ _ e. e ≡ Memory };

    fn from(_: AllocError) -> Stop {
        Stop::Memory
    }
}

impl<T: Drop> From<AllocFailed<T>> for Stop {
    ghost from_gives = { λ _ e. e ≡ Memory };

    fn from(_: AllocFailed<T>) -> Stop {
        Stop::Memory
    }
}
