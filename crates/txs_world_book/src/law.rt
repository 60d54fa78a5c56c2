//! Laws of books. Each is the contract of a function of its own, which does nothing when it runs.

ghost use Rattle.txs_world_book.specs.Laws.{WorldsStay, UnwrittenStays, HistoryGrows, HistoryOfWhole, AtomStays, UnswappedStays, AtomServeKeeps};

/// What comes later leaves the worlds up to a place as they were.
pub fn worlds_stay()
    ensures { WorldsStay }
{}

/// A ref that wasn't written since a place has its value of then.
pub fn unwritten_stays()
    ensures { UnwrittenStays }
{}

/// One more event is in its actor's history alone.
pub fn history_grows()
    ensures { HistoryGrows }
{}

/// The worlds of an actor's history are those of the whole book.
pub fn history_of_whole()
    ensures { HistoryOfWhole }
{}

/// What comes later leaves an atom's values up to a place as they were.
pub fn atom_stays()
    ensures { AtomStays }
{}

/// An atom that wasn't swapped since a place has its value of then.
pub fn unswapped_stays()
    ensures { UnswappedStays }
{}

/// What an atom's book does keeps it legal.
pub fn atom_serve_keeps()
    ensures { AtomServeKeeps }
{}
