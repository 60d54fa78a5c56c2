//! The cells of a store.

ghost use Rattle.std.specs.Prelude.{◌≡◌, ◌≤◌, ◌||◌, ◌&&◌, nat_lt, [], IfOk, length, vec_capacity};
ghost use Rattle.txs_world_book.specs.Book.{actors, agents_below, is_empty};
ghost use Rattle.txs_world_book.specs.Stands.{AreCounted};
ghost use Rattle.txs_world_book.specs.Served.{continues, cells_of};

use crate::named::sends_nothing;
use std::alloc::{AllocError, Global};
use std::marker::Model;
use txs_value_cell::{Action, CellDefinition, ErrorMode, agents_in};
use txs_value_data::{CellKind, Value, copy_value};

/// A cell of a store: its kind, the value that it opened with, and of an agent whether it continues after a fault.
#[derive(Drop)]
pub struct StoreCell {
    pub kind: CellKind,
    pub opening: Value,
    pub goes_on: bool,
}

/// The cells of a store, and of each how many agents there are before it: which actor is whose is counted once, as they open.
#[derive(Drop)]
pub struct Cells {
    all: Vec<StoreCell>,
    before: Vec<usize>,
    /// How many agents there are.
    agents: usize,
}

impl Model for Cells {
    ghost use Rattle.std.specs.Prelude.{List};
    ghost use Rattle.std.specs.Coded.{codes};
    ghost use Rattle.txs_value_data.specs.contracts.value.Value as value;
    ghost use Rattle.txs_world_book.specs.declared.cell.StoreCell.{StoreCell};

    ghost Value = { List StoreCell };

    ghost coded = { Prim.hlevel (codes, value.the_row.coded) };

    ghost view = { λ c. c.all.items };

    ghost use Rattle.txs_world_book.specs.Stands.{AreCounted};

    ghost invariant = { λ c. AreCounted c.all.items c.before.items c.agents };
}

impl Cells {
    /// The cells of these definitions, without their names.
    pub fn open(alloc: Global, definitions: &[CellDefinition]) -> Result<Cells, AllocError>
        ensures { IfOk result (λ c. c ≡ cells_of definitions.now) }
    {
        let all = open_cells(alloc, definitions)?;
        let mut before = Vec::with_capacity(alloc, all.len())?;
        let agents = count_agents(&mut before, all.as_slice());
        Ok(Cells {
            all,
            before,
            agents,
        })
    }

    /// The cells, lent.
    pub fn as_slice(&self) -> &[StoreCell]
        ensures { result.now ≡ self.now }
    {
        self.all.as_slice()
    }

    /// How many agents there are among the cells with a lesser number.
    pub fn agents_below(&self, number: u16) -> usize
        ensures { result ≡ agents_below self.now number }
    {
        let number = usize::from(number);
        if number < self.before.len() {
            self.before[number]
        } else {
            self.agents
        }
    }

    /// How many actors there are beside these cells: so many threads, and the agents.
    pub fn actors(&self, threads: u16) -> usize
        ensures { result ≡ actors threads self.now }
    {
        usize::from(threads) + self.agents
    }

    /// Whether an actor, where there are so many threads, makes commits that send this: an agent's actor makes those alone that
    /// send nothing, since an action holds its sends up to its end.
    pub fn may_commit(&self, threads: u16, actor: u16, sends: &[Action]) -> bool
        ensures { result ≡ (nat_lt actor threads || (is_empty sends.now && nat_lt actor (actors threads self.now))) }
    {
        actor < threads || (sends_nothing(sends) && usize::from(actor) < self.actors(threads))
    }
}

/// The cells of these definitions, without their names. They share the opening values with their definitions.
fn open_cells(alloc: Global, definitions: &[CellDefinition]) -> Result<Vec<StoreCell>, AllocError>
    ensures { IfOk result (λ v. v.items ≡ cells_of definitions.now) }
{
    let mut cells = Vec::with_capacity(alloc, definitions.len())?;
    for definition in definitions {
        let opening = copy_value(&definition.opening)?;
        cells.push_reserved(StoreCell {
            kind: definition.kind,
            opening,
            goes_on: continues(definition.error_mode),
        });
    }
    Ok(cells)
}

/// Whether an agent of this error mode continues after a fault.
pub fn continues(mode: ErrorMode) -> bool
    ensures { result ≡ continues mode }
{
    mode == ErrorMode::Continue
}

/// How many agents there are, and in a list with room for it how many before each cell. The cells are gone through once.
fn count_agents(before: &mut Vec<usize>, cells: &[StoreCell]) -> usize
    requires empty { before.old.items ≡ [] }
    requires room { length cells.now ≤ vec_capacity before.old }
    ensures { AreCounted cells.now before.new.items result }
{
    let mut agents = 0usize;
    for cell in cells {
        before.push_reserved(agents);
        agents += agents_in(cell.kind);
    }
    agents
}
