//! Programs with calls inlined.

ghost use Rattle.std.specs.Prelude.{◌≡◌, ◌<◌, ◌≤◌, ◌+◌, [], IfErr, IfOk, MatchOption};
ghost use Rattle.txs_opt.specs.Inline.{budget_of, functions_inlined, inlined, inlined_program, threads_inlined};
ghost use Rattle.txs_tree_meaning.specs.Locals.{reach};
ghost use Rattle.txs_tree_meaning.specs.Sound.{nodes_of_all, nodes_of_functions};
ghost use Rattle.txs_tree_meaning.specs.View.{function_of, functions_of, program_of, thread_of, threads_of, tree_of};
ghost use Rattle.txs_value_data.specs.Limits.{most_locals};

use crate::inline_nodes::inline_node;
use std::alloc::{AllocError, Global};
use txs_check::nodes_left;
use txs_tree_meaning::{Function, Program, Raw, Thread};
use txs_value_cell::{CellDefinition, copy_cells};
use txs_value_data::Span;
use txs_value_data::limits::MOST_NODES;

/// How many of so many nodes are left after those of the functions' bodies; none where they have more.
fn left_of_functions(functions: &[Function], limit: u32) -> Option<u32>
    ensures { MatchOption result (limit < nodes_of_functions (functions_of functions.now)) (λ left. left + nodes_of_functions (functions_of functions.now) ≡ limit) }
{
    let mut left = limit;
    for function in functions {
        let Some(rest) = nodes_left(&function.body, left) else {
            return None;
        };
        left = rest;
    }
    Some(left)
}

/// The same of threads.
fn left_of_threads(threads: &[Thread], limit: u32) -> Option<u32>
    ensures { MatchOption result (limit < nodes_of_all (threads_of threads.now)) (λ left. left + nodes_of_all (threads_of threads.now) ≡ limit) }
{
    let mut left = limit;
    for thread in threads {
        let Some(rest) = nodes_left(&thread.body, left) else {
            return None;
        };
        left = rest;
    }
    Some(left)
}

/// How many nodes more the program may get, which is to have at most so many.
fn budget_of(program: &Program, limit: u32) -> u32
    ensures { result ≡ budget_of limit (program_of program.now) }
{
    let Some(left) = left_of_functions(program.functions(), limit.min(MOST_NODES)) else {
        return 0;
    };
    match left_of_threads(program.threads(), left) {
        Some(left) => left,
        None => 0,
    }
}

/// The function with the calls in its body inlined.
fn inline_function(
    alloc: Global,
    done: &[Function],
    budget: &mut u32,
    function: &Function,
) -> Result<Function, AllocError>
    requires { reach function.now.parameters (tree_of function.now.body) ≤ most_locals }
    ensures { IfOk result (λ f. (function_of f ≡ record (function_of function.now) { body = (inlined (functions_of done.now) function.now.parameters budget.old (tree_of function.now.body)).tree })
        × (budget.new ≡ (inlined (functions_of done.now) function.now.parameters budget.old (tree_of function.now.body)).budget)) }
{
    let live = usize::from(function.parameters);
    let body = inline_node(alloc, done, live, budget, &function.body)?;
    Ok(Function {
        parameters: function.parameters,
        body,
        span: function.span,
    })
}

/// The functions in order, each with the calls in its body inlined of those before it.
fn inline_functions(
    alloc: Global,
    budget: &mut u32,
    program: &Program,
) -> Result<Vec<Function>, AllocError>
    ensures { IfOk result (λ c. (functions_of c.items ≡ (functions_inlined [] budget.old (functions_of program.now.functions)).functions)
        × (budget.new ≡ (functions_inlined [] budget.old (functions_of program.now.functions)).budget)) }
{
    program.is_sound();
    let functions = program.functions();
    let mut done = Vec::with_capacity(alloc, functions.len())?;
    for function in functions {
        let one = inline_function(alloc, done.as_slice(), budget, function)?;
        done.push(one)?;
    }
    Ok(done)
}

/// The thread with the calls in its body inlined.
fn inline_thread(
    alloc: Global,
    done: &[Function],
    budget: &mut u32,
    thread: &Thread,
) -> Result<Thread, AllocError>
    requires { reach 0 (tree_of thread.now.body) ≤ most_locals }
    ensures { IfOk result (λ t. (thread_of t ≡ record (thread_of thread.now) { body = (inlined (functions_of done.now) 0 budget.old (tree_of thread.now.body)).tree })
        × (budget.new ≡ (inlined (functions_of done.now) 0 budget.old (tree_of thread.now.body)).budget)) }
{
    let body = inline_node(alloc, done, 0, budget, &thread.body)?;
    Ok(Thread {
        body,
        span: thread.span,
    })
}

/// The threads in order, each with the calls in its body inlined.
fn inline_threads(
    alloc: Global,
    done: &[Function],
    budget: u32,
    program: &Program,
) -> Result<Vec<Thread>, AllocError>
    ensures { IfOk result (λ c. threads_of c.items ≡ threads_inlined (functions_of done.now) budget (threads_of program.now.threads)) }
{
    program.is_sound();
    let threads = program.threads();
    let mut left = budget;
    let mut anew = Vec::with_capacity(alloc, threads.len())?;
    for thread in threads {
        anew.push(inline_thread(alloc, done, &mut left, thread)?)?;
    }
    Ok(anew)
}

/// The program of these parts, which are those of a sound program with calls inlined.
fn program_as_inlined(
    cells: Vec<CellDefinition>,
    validator_spans: Vec<Span>,
    functions: Vec<Function>,
    threads: Vec<Thread>,
    program: &Program,
    limit: u32,
) -> Program
    requires { program_of (record { cells = cells.items; validator_spans = validator_spans.items; functions = functions.items; threads = threads.items }) ≡ inlined_program limit (program_of program.now) }
    ensures { program_of result ≡ inlined_program limit (program_of program.now) }
{
    program.is_sound();
    program.is_marked();
    Program::new(Raw::new(cells, validator_spans, functions, threads))
}

/// The program with calls inlined, in memory of its own.
pub fn inlined_copy(alloc: Global, program: &Program, limit: u32) -> Result<Program, AllocError>
    ensures { IfOk result (λ p. program_of p ≡ inlined_program limit (program_of program.now)) }
{
    let mut budget = budget_of(program, limit);
    let cells = copy_cells(alloc, program.cells())?;
    let validator_spans = Vec::from_slice(alloc, program.validator_spans())?;
    let functions = inline_functions(alloc, &mut budget, program)?;
    let threads = inline_threads(alloc, functions.as_slice(), budget, program)?;
    Ok(program_as_inlined(cells, validator_spans, functions, threads, program, limit))
}

/// Inlines calls: a call of a function with at most 40 nodes and no recur to itself becomes a let of its parameters with its body,
/// as long as the program has at most so many nodes, and keeps the other limits. Functions come in order, then threads; in a body
/// calls come from left to right, those in a call's arguments before it. The program means the same.
///
/// # Errors
/// The program as it was, where there was no memory.
pub fn inline(alloc: Global, program: Program, limit: u32) -> Result<Program, Program>
    ensures inlined { IfOk result (λ p. program_of p ≡ inlined_program limit (program_of program)) }
    ensures unchanged { IfErr result (λ p. p ≡ program) }
{
    match inlined_copy(alloc, &program, limit) {
        Ok(inlined) => Ok(inlined),
        Err(_) => Err(program),
    }
}
