//! Why an evaluation gives no value.

ghost use Rattle.std.specs.Prelude.{◌≡◌};
ghost use Rattle.txs_tree_eval_transaction.specs.declared.stop.ThreadStop.TheVariants.{Memory};
ghost use Rattle.txs_tree_eval_transaction.specs.Worked.{stop_without_fault};

use std::alloc::{AllocError, AllocFailed};
use txs_value_data::Fault;

/// Why an evaluation gives no value.
#[derive(Clone, Copy)]
pub enum ThreadStop {
    /// A form faults.
    Fault(Fault),
    /// What it needs of the shared state isn't there.
    Event,
    /// The events aren't those of the thread.
    Wrong,
    /// A loop's turns don't suffice.
    Turns,
    /// There was no memory.
    Memory,
}

impl ThreadStop {
    /// The same where no fault may come.
    pub fn without_fault(self) -> ThreadStop
        ensures { result ≡ stop_without_fault self }
    {
        match self {
            ThreadStop::Fault(_) => ThreadStop::Wrong,
            other => other,
        }
    }
}

impl From<AllocError> for ThreadStop {
    ghost from_gives = { λ _ s. s ≡ Memory };

    fn from(_e: AllocError) -> ThreadStop {
        ThreadStop::Memory
    }
}

impl<T: Drop> From<AllocFailed<T>> for ThreadStop {
    ghost from_gives = { λ _ s. s ≡ Memory };

    fn from(_e: AllocFailed<T>) -> ThreadStop {
        ThreadStop::Memory
    }
}
