//! Programs folded.

ghost use Rattle.std.specs.Prelude.{◌≡◌, IfErr, IfOk};
ghost use Rattle.txs_opt.specs.Fold.{folded_function, folded_functions, folded_program, folded_thread, folded_threads};
ghost use Rattle.txs_tree_meaning.specs.View.{function_of, functions_of, program_of, thread_of, threads_of};

use crate::fold_nodes::fold_node;
use std::alloc::{AllocError, Global};
use txs_tree_meaning::{Function, Program, Raw, Thread};
use txs_value_cell::{CellDefinition, copy_cells};
use txs_value_data::Span;

/// The function with its body folded.
fn fold_function(alloc: Global, function: &Function) -> Result<Function, AllocError>
    ensures { IfOk result (λ f. function_of f ≡ folded_function (function_of function.now)) }
{
    let body = fold_node(alloc, &function.body)?;
    Ok(Function {
        parameters: function.parameters,
        body,
        span: function.span,
    })
}

/// The functions with their bodies folded.
fn fold_functions(alloc: Global, functions: &[Function]) -> Result<Vec<Function>, AllocError>
    ensures { IfOk result (λ c. functions_of c.items ≡ folded_functions (functions_of functions.now)) }
{
    let mut anew = Vec::with_capacity(alloc, functions.len())?;
    for function in functions {
        anew.push(fold_function(alloc, function)?)?;
    }
    Ok(anew)
}

/// The thread with its body folded.
fn fold_thread(alloc: Global, thread: &Thread) -> Result<Thread, AllocError>
    ensures { IfOk result (λ t. thread_of t ≡ folded_thread (thread_of thread.now)) }
{
    let body = fold_node(alloc, &thread.body)?;
    Ok(Thread {
        body,
        span: thread.span,
    })
}

/// The threads with their bodies folded.
fn fold_threads(alloc: Global, threads: &[Thread]) -> Result<Vec<Thread>, AllocError>
    ensures { IfOk result (λ c. threads_of c.items ≡ folded_threads (threads_of threads.now)) }
{
    let mut anew = Vec::with_capacity(alloc, threads.len())?;
    for thread in threads {
        anew.push(fold_thread(alloc, thread)?)?;
    }
    Ok(anew)
}

/// The program of these parts, which are the parts of a sound program, folded.
fn program_as_folded(
    cells: Vec<CellDefinition>,
    validator_spans: Vec<Span>,
    functions: Vec<Function>,
    threads: Vec<Thread>,
    program: &Program,
) -> Program
    requires { program_of (record { cells = cells.items; validator_spans = validator_spans.items; functions = functions.items; threads = threads.items }) ≡ folded_program (program_of program.now) }
    ensures { program_of result ≡ folded_program (program_of program.now) }
{
    program.is_sound();
    program.is_marked();
    Program::new(Raw::new(cells, validator_spans, functions, threads))
}

/// The program folded, in memory of its own.
pub fn folded_copy(alloc: Global, program: &Program) -> Result<Program, AllocError>
    ensures { IfOk result (λ p. program_of p ≡ folded_program (program_of program.now)) }
{
    let cells = copy_cells(alloc, program.cells())?;
    let validator_spans = Vec::from_slice(alloc, program.validator_spans())?;
    let functions = fold_functions(alloc, program.functions())?;
    let threads = fold_threads(alloc, program.threads())?;
    Ok(program_as_folded(cells, validator_spans, functions, threads, program))
}

/// Folds a program: parts whose value is known stand as that value, and what has no use goes. It means the same.
///
/// # Errors
/// The program as it was, where there was no memory.
pub fn fold(alloc: Global, program: Program) -> Result<Program, Program>
    ensures folded { IfOk result (λ p. program_of p ≡ folded_program (program_of program)) }
    ensures unchanged { IfErr result (λ p. p ≡ program) }
{
    match folded_copy(alloc, &program) {
        Ok(shorter) => Ok(shorter),
        Err(_) => Err(program),
    }
}
