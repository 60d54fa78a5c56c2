//! What is known of a run that was made again.

ghost use Rattle.std.specs.Prelude.{◌≡◌, length, option_copied};
ghost use Rattle.std.specs.List.{slice_get};
ghost use Rattle.txs_value_cell.specs.Forms.{same_kind};
ghost use Rattle.txs_cli_events.specs.Run.{actor_in, agent_of, atom_of, cell_name, event_in, numbers_of};

use txs_value_cell::CellDefinition;
use txs_value_data::{CellId, CellKind, Span};
use txs_world_protocol::{ActorReport, Event, Place, Report};

/// An event of a run.
#[derive(Clone, Copy)]
pub struct Noted {
    /// Whose it is: threads are numbered from 0, agents after them.
    pub actor: u16,
    /// Where it is.
    pub event: Place,
    /// Where in the script the actor was: the span of the instruction by which it asked for it.
    pub at: Option<Span>,
    /// How many bytes the actor had printed before it.
    pub printed: usize,
}

/// A run that is over, with its events in their order.
#[derive(Clone, Copy)]
pub struct Replayed<'a> {
    /// The cells of its script.
    pub cells: &'a [CellDefinition],
    pub report: &'a Report,
    /// All events of all books, in the order of the run.
    pub notes: &'a [Noted],
}

/// Whether two kinds of cells are the same.
fn same_kind(a: CellKind, b: CellKind) -> bool
    ensures { result ≡ same_kind a b }
{
    matches!(
        (a, b),
        (CellKind::Ref, CellKind::Ref)
            | (CellKind::Atom, CellKind::Atom)
            | (CellKind::Agent, CellKind::Agent)
    )
}

/// The number, among all cells, of the so many-th cell of this kind, counted from 0.
fn cell_of_kind(cells: &[CellDefinition], kind: CellKind, n: usize) -> Option<usize>
    ensures { result ≡ slice_get (numbers_of kind 0 cells.now) n }
{
    let mut before = n;
    for (number, cell) in cells.iter().enumerate() {
        if !same_kind(cell.kind, kind) {
            continue;
        }
        if before == 0 {
            return Some(number);
        }
        before -= 1;
    }
    None
}

impl<'a> Replayed<'a> {
    /// The event at a place, if there is one.
    pub fn event_at(self, place: Place) -> Option<&'a Event>
        ensures { option_copied result ≡ event_in self.entry.report.now place.book place.at }
    {
        let at = place.at as usize;
        if place.book == 0 {
            return self.report.book.get(at);
        }
        let book = self.report.atom_books.get(place.book as usize - 1)?;
        book.as_slice().get(at)
    }

    /// What an actor did, if there is one of this number.
    pub fn actor(self, actor: u16) -> Option<&'a ActorReport>
        ensures { option_copied result ≡ actor_in self.entry.report.now actor }
    {
        let actor = usize::from(actor);
        let threads = self.report.threads.len();
        if actor < threads {
            return self.report.threads.get(actor);
        }
        self.report.agents.get(actor - threads)
    }

    /// The number, among all cells, of the agent that an actor is; of a thread there is none.
    pub fn agent_of(self, actor: u16) -> Option<usize>
        ensures { result ≡ agent_of self.entry.cells.now (length self.entry.report.now.threads.items) actor }
    {
        let actor = usize::from(actor);
        let threads = self.report.threads.len();
        if actor < threads {
            return None;
        }
        cell_of_kind(self.cells, CellKind::Agent, actor - threads)
    }

    /// The number, among all cells, of the atom whose book has this number; of the journal, whose number is 0, there is none.
    pub fn atom_of(self, book: u32) -> Option<usize>
        ensures { result ≡ atom_of self.entry.cells.now book }
    {
        if book == 0 {
            return None;
        }
        cell_of_kind(self.cells, CellKind::Atom, book as usize - 1)
    }

    /// The name of the cell with this number; nothing where there is none.
    pub fn cell_name(self, number: usize) -> &'a [u8]
        ensures { result.now ≡ cell_name self.entry.cells.now number }
    {
        match self.cells.get(number) {
            Some(cell) => cell.name.as_bytes(),
            None => b"",
        }
    }

    /// The name of a cell.
    pub fn name_of(self, cell: CellId) -> &'a [u8]
        ensures { result.now ≡ cell_name self.entry.cells.now cell.number }
    {
        self.cell_name(usize::from(cell.number))
    }
}
