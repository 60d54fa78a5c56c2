//! Programs of which names are resolved.

ghost use Rattle.std.specs.Prelude.{◌≡◌};
ghost use Rattle.txs_tree_meaning.specs.Marked.{MarkedProgram};
ghost use Rattle.txs_tree_meaning.specs.Scoped.{Scoped};
ghost use Rattle.txs_tree_meaning.specs.View.{Parts, program_of};

use crate::node::{Function, Thread};
use std::marker::Model;
use txs_value_cell::CellDefinition;
use txs_value_data::Span;

/// A program of which names are resolved, and that the checks haven't seen: the cells that it defines, in the
/// order of their numbers, its functions and its threads, each in script order; and of each cell where its validator stands. Contracts see it as
/// `program_of` its parts, which is scoped. The mark of each node whose result is used says that it is wanted.
pub struct Raw {
    cells: Vec<CellDefinition>,
    validator_spans: Vec<Span>,
    functions: Vec<Function>,
    threads: Vec<Thread>, // in script order
}

// Dropped by a call that is proved here, so that no crate above proves it again.
impl Drop for Raw {
    fn drop(self) {
        let Raw {
            cells,
            validator_spans,
            functions,
            threads: last,
        } = self;
        drop(cells);
        drop(validator_spans);
        drop(functions);
        drop(last);
    }
}

impl Model for Raw {
    ghost use Rattle.std.specs.Coded.{codes};
    ghost use Rattle.txs_tree_meaning.specs.View.{Parts};
    ghost use Rattle.txs_tree_meaning.specs.contracts.node.Node as node;
    ghost use Rattle.txs_value_data.specs.contracts.value.Value as value;

    ghost Value = { Parts };

    ghost coded = { Prim.hlevel (codes, node.the_row.coded, value.the_row.coded) };

    ghost view = { λ p. record { cells = p.cells.items; validator_spans = p.validator_spans.items; functions = p.functions.items; threads = p.threads.items } };

    ghost use Rattle.txs_tree_meaning.specs.Marked.{MarkedProgram};
    ghost use Rattle.txs_tree_meaning.specs.Scoped.{Scoped};
    ghost use Rattle.txs_tree_meaning.specs.View.{program_of};

    ghost invariant = { λ p. Scoped (program_of (record { cells = p.cells.items; validator_spans = p.validator_spans.items; functions = p.functions.items; threads = p.threads.items }))
        × MarkedProgram (program_of (record { cells = p.cells.items; validator_spans = p.validator_spans.items; functions = p.functions.items; threads = p.threads.items })) };
}

impl Raw {
    /// The program of these cells, functions and threads, whose names are resolved. Of each cell it is said where its validator stands,
    /// or its definition where it has none.
    pub fn new(
        cells: Vec<CellDefinition>,
        validator_spans: Vec<Span>,
        functions: Vec<Function>,
        threads: Vec<Thread>,
    ) -> Raw
        requires scoped { Scoped (program_of (record { cells = cells.items; validator_spans = validator_spans.items; functions = functions.items; threads = threads.items })) }
        requires marked { MarkedProgram (program_of (record { cells = cells.items; validator_spans = validator_spans.items; functions = functions.items; threads = threads.items })) }
        ensures { result ≡ record { cells = cells.items; validator_spans = validator_spans.items; functions = functions.items; threads = threads.items } }
    {
        Raw {
            cells,
            validator_spans,
            functions,
            threads,
        }
    }

    /// The cells, in the order of their numbers.
    pub fn cells(&self) -> &[CellDefinition]
        ensures { result.now ≡ self.now.cells }
    {
        self.cells.as_slice()
    }

    /// Where the validator of each cell stands, or the cell's definition where it has none.
    pub fn validator_spans(&self) -> &[Span]
        ensures { result.now ≡ self.now.validator_spans }
    {
        self.validator_spans.as_slice()
    }

    /// The functions, in the order of their numbers.
    pub fn functions(&self) -> &[Function]
        ensures value { result.now ≡ self.now.functions }
        ensures scoped { Scoped (program_of self.now) }
    {
        self.functions.as_slice()
    }

    /// The threads, in script order.
    pub fn threads(&self) -> &[Thread]
        ensures { result.now ≡ self.now.threads }
    {
        self.threads.as_slice()
    }

    /// The mark of each node whose result is used says that it is wanted.
    pub fn is_marked(&self)
        ensures { MarkedProgram (program_of self.now) }
    {
        // A step of the proof, which does nothing when it runs.
        let _ = &self.threads;
    }
}
