//! Copies of programs.

ghost use Rattle.std.specs.Prelude.{◌≡◌, ◌≤◌, IfOk};
ghost use Rattle.txs_tree_meaning.specs.Locals.{top};
ghost use Rattle.txs_tree_meaning.specs.View.{function_of, functions_of, program_of, thread_of, threads_of, tree_of};

use crate::shifting::{Shift, shift_node};
use crate::{Function, Node, Program, Raw, Thread};
use std::alloc::{AllocError, Global};
use txs_value_cell::{CellDefinition, copy_cells};
use txs_value_data::Span;

/// The same node.
fn copy_node(alloc: Global, node: &Node) -> Result<Node, AllocError>
    requires { top (tree_of node.now) ≤ 256 }
    ensures { IfOk result (λ n. tree_of n ≡ tree_of node.now) }
{
    shift_node(alloc, Shift { from: 0, by: 0 }, node)
}

/// The same function.
fn copy_function(alloc: Global, function: &Function) -> Result<Function, AllocError>
    requires { top (tree_of function.now.body) ≤ 256 }
    ensures { IfOk result (λ f. function_of f ≡ function_of function.now) }
{
    let body = copy_node(alloc, &function.body)?;
    Ok(Function {
        parameters: function.parameters,
        body,
        span: function.span,
    })
}

/// The same functions.
fn copy_functions(alloc: Global, program: &Program) -> Result<Vec<Function>, AllocError>
    ensures { IfOk result (λ c. functions_of c.items ≡ functions_of program.now.functions) }
{
    program.is_sound();
    let functions = program.functions();
    let mut copies = Vec::with_capacity(alloc, functions.len())?;
    for function in functions {
        copies.push(copy_function(alloc, function)?)?;
    }
    Ok(copies)
}

/// The same thread.
fn copy_thread(alloc: Global, thread: &Thread) -> Result<Thread, AllocError>
    requires { top (tree_of thread.now.body) ≤ 256 }
    ensures { IfOk result (λ t. thread_of t ≡ thread_of thread.now) }
{
    let body = copy_node(alloc, &thread.body)?;
    Ok(Thread {
        body,
        span: thread.span,
    })
}

/// The same threads.
fn copy_threads(alloc: Global, program: &Program) -> Result<Vec<Thread>, AllocError>
    ensures { IfOk result (λ c. threads_of c.items ≡ threads_of program.now.threads) }
{
    program.is_sound();
    let threads = program.threads();
    let mut copies = Vec::with_capacity(alloc, threads.len())?;
    for thread in threads {
        copies.push(copy_thread(alloc, thread)?)?;
    }
    Ok(copies)
}

/// The program of these parts, which are those of another one.
fn program_of_copies(
    cells: Vec<CellDefinition>,
    validator_spans: Vec<Span>,
    functions: Vec<Function>,
    threads: Vec<Thread>,
    program: &Program,
) -> Program
    requires { program_of (record { cells = cells.items; validator_spans = validator_spans.items; functions = functions.items; threads = threads.items }) ≡ program_of program.now }
    ensures { program_of result ≡ program_of program.now }
{
    program.is_sound();
    program.is_marked();
    Program::new(Raw::new(cells, validator_spans, functions, threads))
}

/// The same program, in memory of its own: equal cells, and the same trees, with their spans and marks.
///
/// # Errors
/// There was no memory.
pub fn copy_program(alloc: Global, program: &Program) -> Result<Program, AllocError>
    ensures { IfOk result (λ p. program_of p ≡ program_of program.now) }
{
    let cells = copy_cells(alloc, program.cells())?;
    let validator_spans = Vec::from_slice(alloc, program.validator_spans())?;
    let functions = copy_functions(alloc, program)?;
    let threads = copy_threads(alloc, program)?;
    Ok(program_of_copies(cells, validator_spans, functions, threads, program))
}
