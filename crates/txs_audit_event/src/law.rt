//! What is told is true: what it says to be found is there, what it says to be expected is what the text gives, and the two differ.

ghost use Rattle.txs_audit_event.specs.Truth.{ActsAreTrue, EndsAreTrue, EventsAreTrue, LinesAreTrue};

/// Of two texts it is the first line in which they differ.
pub fn lines_are_true()
    ensures { LinesAreTrue }
{}

/// Of a thread's end it is how it ended, what it printed, or which book isn't full.
pub fn ends_are_true()
    ensures { EndsAreTrue }
{}

/// Of an event it is what it writes or sends, what it is, who disturbed it, or what the text does there.
pub fn events_are_true()
    ensures { EventsAreTrue }
{}

/// Of an act it is what the action came to, and what it sent.
pub fn acts_are_true()
    ensures { ActsAreTrue }
{}
