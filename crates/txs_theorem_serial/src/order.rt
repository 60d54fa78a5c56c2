//! In which order the events of all books of a run came, and when there is an order that fits. Nothing in this crate runs.

ghost use Rattle.txs_theorem_serial.specs.Taken.{LinksAreWithin, NamedOnACycle, NoneIsOrdered, OneLastCut, SomeIsNotOrdered};

/// What traces say of the order is between events of the books.
pub fn links_are_within()
    ensures { LinksAreWithin }
{}

/// Where no event is out of order there is an order of all events.
pub fn none_is_ordered()
    ensures { NoneIsOrdered }
{}

/// Where one is named there is none.
pub fn some_is_not_ordered()
    ensures { SomeIsNotOrdered }
{}

/// The event that is named comes before itself.
pub fn named_on_a_cycle()
    ensures { NamedOnACycle }
{}

/// Whoever takes events in any order, as long as one may be taken, comes to the same end.
pub fn one_last_cut()
    ensures { OneLastCut }
{}
