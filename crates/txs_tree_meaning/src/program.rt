//! Programs: cells, functions and threads that the checks accepted.

ghost use Rattle.std.specs.Prelude.{◌≡◌};
ghost use Rattle.txs_tree_meaning.specs.Marked.{MarkedProgram};
ghost use Rattle.txs_tree_meaning.specs.Sound.{Sound};
ghost use Rattle.txs_tree_meaning.specs.View.{Parts, program_of};

use crate::node::{Function, Thread};
use crate::raw::Raw;
use std::marker::Model;
use txs_value_cell::CellDefinition;
use txs_value_data::Span;

/// A program that the checks accepted: the cells that it defines, in the order of their numbers, its functions
/// and its threads, each in script order. Contracts see it as `program_of` its parts, which is sound.
#[derive(Drop)]
pub struct Program {
    raw: Raw,
}

impl Model for Program {
    ghost use Rattle.std.specs.Coded.{codes};
    ghost use Rattle.txs_tree_meaning.specs.View.{Parts};
    ghost use Rattle.txs_tree_meaning.specs.contracts.node.Node as node;
    ghost use Rattle.txs_value_data.specs.contracts.value.Value as value;

    ghost Value = { Parts };

    ghost coded = { Prim.hlevel (codes, node.the_row.coded, value.the_row.coded) };

    ghost view = { λ p. p.raw };

    ghost use Rattle.txs_tree_meaning.specs.Sound.{Sound};
    ghost use Rattle.txs_tree_meaning.specs.View.{program_of};

    ghost invariant = { λ p. Sound (program_of p.raw) };
}

impl Program {
    /// Takes a program that is sound.
    pub fn new(raw: Raw) -> Program
        requires { Sound (program_of raw) }
        ensures { result ≡ raw }
    {
        Program { raw }
    }

    /// The cells, in the order of their numbers.
    pub fn cells(&self) -> &[CellDefinition]
        ensures { result.now ≡ self.now.cells }
    {
        self.raw.cells()
    }

    /// Where the validator of each cell stands, or the cell's definition where it has none.
    pub fn validator_spans(&self) -> &[Span]
        ensures { result.now ≡ self.now.validator_spans }
    {
        self.raw.validator_spans()
    }

    /// The functions, in the order of their numbers.
    pub fn functions(&self) -> &[Function]
        ensures { result.now ≡ self.now.functions }
    {
        self.raw.functions()
    }

    /// The threads, in script order.
    pub fn threads(&self) -> &[Thread]
        ensures value { result.now ≡ self.now.threads }
        ensures sound { Sound (program_of self.now) }
    {
        self.raw.threads()
    }

    /// The program is sound.
    pub fn is_sound(&self)
        ensures { Sound (program_of self.now) }
    {
        // A step of the proof, which does nothing when it runs.
        let _ = &self.raw;
    }

    /// The mark of each node whose result is used says that it is wanted.
    pub fn is_marked(&self)
        ensures { MarkedProgram (program_of self.now) }
    {
        self.raw.is_marked();
    }
}
