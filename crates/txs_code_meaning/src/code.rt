//! Code: cells, constants, and the bodies of functions and threads.

ghost use Rattle.std.specs.Prelude.{◌≡◌, ◌+◌, ◌≤◌, length};
ghost use Rattle.txs_code_meaning.specs.PlainCode.{PlainCode, CodeBody};

use crate::instr::Instr;
use std::marker::Model;
use txs_value_cell::CellDefinition;
use txs_value_data::{Span, Value};

/// The code of a body: how many parameters it has, which are the first of its locals; how many locals in all; and its
/// instructions, each with the span of what it was made for. A thread's body has no parameters.
#[derive(Drop)]
pub struct Body {
    parameters: u8,
    locals: u8,
    instrs: Vec<Instr>,
    spans: Vec<Span>,
}

impl Model for Body {
    ghost use Rattle.std.specs.Prelude.{◌≡◌, length};
    ghost use Rattle.txs_code_meaning.specs.PlainCode.{CodeBody};

    ghost Value = { CodeBody };

    ghost view = { λ b. record { parameters = b.parameters; locals = b.locals; instrs = b.instrs.items; spans = b.spans.items } };

    ghost invariant = { λ b. length b.spans.items ≡ length b.instrs.items };
}

impl Body {
    /// A body of so many parameters and locals and these instructions with their spans.
    pub fn new(parameters: u8, locals: u8, instrs: Vec<Instr>, spans: Vec<Span>) -> Body
        requires { length spans.items ≡ length instrs.items }
        ensures { result ≡ record { parameters = parameters; locals = locals; instrs = instrs.items; spans = spans.items } }
    {
        Body {
            parameters,
            locals,
            instrs,
            spans,
        }
    }

    /// How many parameters it has.
    pub fn parameters(&self) -> u8
        ensures { result ≡ self.now.parameters }
    {
        self.parameters
    }

    /// How many locals it has, its parameters among them.
    pub fn locals(&self) -> u8
        ensures { result ≡ self.now.locals }
    {
        self.locals
    }

    /// The instructions.
    pub fn instrs(&self) -> &[Instr]
        ensures { result.now ≡ self.now.instrs }
    {
        self.instrs.as_slice()
    }

    /// The span of each instruction.
    pub fn spans(&self) -> &[Span]
        ensures value { result.now ≡ self.now.spans }
        ensures as_many { length result.now ≡ length self.now.instrs }
    {
        self.spans.as_slice()
    }
}

/// Code: the cells by their numbers, the constants, and a body for each function and for each thread.
pub struct Code {
    cells: Vec<CellDefinition>,
    constants: Vec<Value>,
    functions: Vec<Body>,
    threads: Vec<Body>,
}

// Dropped by a call that is proved here, so that no crate above proves it again.
impl Drop for Code {
    fn drop(self) {
        let Code {
            cells,
            constants,
            functions: bodies,
            threads: last,
        } = self;
        drop(cells);
        drop(constants);
        drop(bodies);
        drop(last);
    }
}

impl Model for Code {
    ghost use Rattle.txs_code_meaning.specs.PlainCode.{PlainCode};
    ghost use Rattle.std.specs.Coded.{codes};
    ghost use Rattle.txs_value_data.specs.contracts.value.Value as value;

    ghost Value = { PlainCode };

    ghost coded = { Prim.hlevel (codes, value.the_row.coded) };

    ghost view = { λ c. record { cells = c.cells.items; constants = c.constants.items; functions = c.functions.items; threads = c.threads.items } };
}

impl Code {
    /// Code of these cells, constants, functions and threads.
    pub fn new(
        cells: Vec<CellDefinition>,
        constants: Vec<Value>,
        functions: Vec<Body>,
        threads: Vec<Body>,
    ) -> Code
        ensures { result ≡ record { cells = cells.items; constants = constants.items; functions = functions.items; threads = threads.items } }
    {
        Code {
            cells,
            constants,
            functions,
            threads,
        }
    }

    /// The cells, by their numbers.
    pub fn cells(&self) -> &[CellDefinition]
        ensures { result.now ≡ self.now.cells }
    {
        self.cells.as_slice()
    }

    /// The constants.
    pub fn constants(&self) -> &[Value]
        ensures { result.now ≡ self.now.constants }
    {
        self.constants.as_slice()
    }

    /// The body of each function, by its number.
    pub fn functions(&self) -> &[Body]
        ensures { result.now ≡ self.now.functions }
    {
        self.functions.as_slice()
    }

    /// The body of each thread, in script order.
    pub fn threads(&self) -> &[Body]
        ensures { result.now ≡ self.now.threads }
    {
        self.threads.as_slice()
    }
}
