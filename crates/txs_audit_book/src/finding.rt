//! What one test finds, and the first of what several find.

ghost use Rattle.std.specs.Prelude.{◌≡◌};
ghost use Rattle.txs_theorem_audit.specs.Audited.{and_then, check, Fine};
ghost use Rattle.txs_audit_book.specs.Judged.{as_found, is_fine};

/// What one test finds. The number is an index in the actor's trace.
#[derive(Clone, Copy)]
pub enum Finding {
    /// Nothing is wrong.
    Fine,
    /// The source doesn't explain this event of this actor, or what comes behind all events.
    Off(u16, usize),
    /// Behind so many events a loop has as many turns as the audit allows.
    Short(u16, usize),
}

impl Finding {
    /// The first that isn't fine.
    pub fn and_then(self, next: Finding) -> Finding
        ensures { as_found result ≡ and_then (as_found self) (as_found next) }
    {
        match self {
            Finding::Fine => next,
            _ => self,
        }
    }

    /// Whether nothing is wrong.
    pub fn is_fine(self) -> bool
        ensures { result ≡ is_fine (as_found self) }
    {
        match self {
            Finding::Fine => true,
            _ => false,
        }
    }
}

/// Fine where this holds, else off there.
pub fn check(holds: bool, actor: u16, event: usize) -> Finding
    ensures { as_found result ≡ check holds actor event }
{
    if holds {
        return Finding::Fine;
    }
    Finding::Off(actor, event)
}
