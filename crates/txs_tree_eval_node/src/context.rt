//! What an evaluation runs in.

ghost use Rattle.std.specs.Prelude.{◌≡◌, ◌<◌, ◌≤◌, ◌-◌, [], Some, length};
ghost use Rattle.txs_world_protocol.specs.SeenEvent.{atoms_below, home};
ghost use Rattle.txs_value_data.specs.Places.{nth};
ghost use Rattle.txs_tree_eval_node.specs.Setting.{Setting, callable, deeper, deepest, on_view};
ghost use Rattle.txs_tree_meaning.specs.Known.{known};
ghost use Rattle.txs_tree_meaning.specs.Sound.{SoundCells, SoundFunctions};
ghost use Rattle.txs_tree_meaning.specs.View.{function_of, functions_of};
ghost use Rattle.txs_tree_eval_transaction.specs.Views.{plain_tx_view, plain_tx_world};

use std::marker::Model;
use txs_tree_eval_transaction::{RefView, TxView};
use txs_tree_meaning::Function;
use txs_value_cell::CellDefinition;
use txs_value_data::{CellId, CellKind};

/// The cells and functions that are defined, how deep calls may go, how many turns each loop may make, and what a running
/// transaction sees. A function calls those before it alone: so no more depth is used than there are functions.
#[derive(Drop)]
pub struct Context<'a> {
    cells: &'a [CellDefinition],
    functions: &'a [Function],
    depth: usize,
    turns: u32,
    world: Option<TxView<'a>>,
}

impl<'a> Model for Context<'a> {
    ghost use Rattle.std.specs.Coded.{codes};
    ghost use Rattle.std.specs.Prelude.{[]};
    ghost use Rattle.txs_tree_eval_node.specs.Setting.{Setting};
    ghost use Rattle.txs_tree_meaning.specs.Known.{known};
    ghost use Rattle.txs_tree_meaning.specs.Sound.{SoundCells, SoundFunctions};
    ghost use Rattle.txs_tree_meaning.specs.View.{functions_of};
    ghost use Rattle.txs_tree_eval_transaction.specs.Views.{plain_tx_world};
    ghost use Rattle.txs_tree_meaning.specs.contracts.node.Node as node;
    ghost use Rattle.txs_value_data.specs.contracts.value.Value as value;

    ghost Value = { Setting };

    ghost coded = { Prim.hlevel (codes, node.the_row.coded, value.the_row.coded) };

    ghost view = { λ c. record { cells = c.cells.now; functions = c.functions.now; depth = c.depth; turns = c.turns; world = plain_tx_world c.world } };

    ghost invariant = { λ c. SoundFunctions [] (functions_of c.functions.now) × SoundCells (known (functions_of c.functions.now)) c.cells.now };
}

impl<'a> Context<'a> {
    /// Calls may go as deep as there are functions, and each loop may make so many turns.
    pub fn new(
        cells: &'a [CellDefinition],
        functions: &'a [Function],
        turns: u32,
        world: Option<TxView<'a>>,
    ) -> Context<'a>
        requires functions { SoundFunctions [] (functions_of functions.now) }
        requires cells { SoundCells (known (functions_of functions.now)) cells.now }
        ensures { result ≡ record { cells = cells.now; functions = functions.now; depth = length functions.now; turns = turns; world = plain_tx_world world.entry } }
    {
        Context {
            cells,
            functions,
            depth: functions.len(),
            turns,
            world,
        }
    }

    /// The functions are sound.
    pub(crate) fn is_sound(&self)
        ensures { SoundFunctions [] (functions_of self.now.functions) }
    {
        // A step of the proof, which does nothing when it runs.
        let _ = &self.functions;
    }

    /// The cells that are defined.
    pub(crate) fn cells(&self) -> &'a [CellDefinition]
        ensures { result.now ≡ self.now.cells }
    {
        self.cells
    }

    /// How many turns each loop may make.
    pub(crate) fn turns(&self) -> u32
        ensures { result ≡ self.now.turns }
    {
        self.turns
    }

    /// What the transaction that runs sees.
    pub(crate) fn world(&self) -> Option<TxView<'a>>
        ensures { plain_tx_world result ≡ self.now.world }
    {
        self.world
    }

    /// The book of a cell: 0 is the store's, n the n-th atom's.
    pub(crate) fn home(&self, cell: CellId) -> usize
        ensures { result ≡ home self.now.cells cell }
    {
        match cell.kind {
            CellKind::Atom => atoms_below(self.cells, cell.number) + 1,
            CellKind::Ref | CellKind::Agent => 0,
        }
    }

    /// The function of this number.
    pub(crate) fn function(&self, number: usize) -> &'a Function
        requires { number < length self.now.functions }
        ensures value { nth (functions_of self.now.functions) number ≡ Some (function_of result.now) }
        ensures sound { SoundFunctions [] (functions_of self.now.functions) }
    {
        let functions = self.functions;
        &functions[number]
    }

    /// What the body of a function runs in that is called here.
    pub(crate) fn deeper(&self) -> Context<'a>
        requires { 0 < self.now.depth }
        ensures { result ≡ deeper self.now }
    {
        Context {
            cells: self.cells,
            functions: self.functions,
            depth: self.depth - 1,
            turns: self.turns,
            world: self.world,
        }
    }

    /// What pure callees run in that are applied outside transactions: calls may go as deep as there are functions, and there are
    /// no cells to read. A validator may be defined behind the function whose form asks it.
    pub(crate) fn deepest(&self) -> Context<'a>
        ensures value { result ≡ deepest self.now }
        ensures sound { SoundCells (callable (deepest self.now)) self.now.cells }
    {
        Context {
            cells: self.cells,
            functions: self.functions,
            depth: self.functions.len(),
            turns: self.turns,
            world: Some(TxView::whole(RefView {
                cells: &[],
                swaps: None,
                place: 0,
            })),
        }
    }

    /// What the body of a transaction runs in that sees this.
    pub(crate) fn on(&self, world: TxView<'a>) -> Context<'a>
        ensures { result ≡ on_view self.now (plain_tx_view world.entry) }
    {
        Context {
            cells: self.cells,
            functions: self.functions,
            depth: self.depth,
            turns: self.turns,
            world: Some(world),
        }
    }
}

/// How many atoms there are among the first cells.
fn atoms_below(cells: &[CellDefinition], count: u16) -> usize
    ensures value { result ≡ atoms_below cells.now count }
    ensures few { result ≤ count }
{
    let mut atoms = 0;
    let mut left = count;
    for cell in cells {
        if left == 0 {
            return atoms;
        }
        left -= 1;
        match cell.kind {
            CellKind::Atom => atoms += 1,
            CellKind::Ref | CellKind::Agent => {}
        }
    }
    atoms
}
