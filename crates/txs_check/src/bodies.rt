//! The bodies of a program in script order: functions and futures, each of which are in script order, and among them the
//! validators of its cells.

ghost use Rattle.std.specs.Prelude.{◌≡◌, ◌≤◌, [], ◌∷◌, length, map};
ghost use Rattle.txs_tree_meaning.specs.View.{tree_of, function_of, functions_of, threads_of};
ghost use Rattle.txs_check.specs.Refused.{before, function_body, in_order, room, taken, thread_body};
ghost use Rattle.txs_check.specs.Signatures.{known_as};
ghost use Rattle.txs_check.specs.Walked.{left, left_by, passed, walked};

use crate::class::Signature;
use crate::error::{CheckError, CheckErrorKind};
use crate::place::{Target, Zone};
use crate::size::nodes_left;
use crate::validators::{Validators, check_all, check_before};
use crate::walk::check_node;
use txs_tree_meaning::{Function, Node, Thread};
use txs_value_data::Span;

/// How many of the first threads are before this place of the script.
fn count_before(from: u32, threads: &[Thread]) -> usize
    ensures few { result ≤ length threads.now }
    ensures count { result ≡ before from (threads_of threads.now) }
{
    let mut count = 0;
    for thread in threads {
        if thread.span.from >= from {
            return count;
        }
        count += 1;
    }
    count
}

/// Whether each future's body may stand, and each validator before it: then those behind them are left.
fn check_threads<'a>(
    signatures: &[Signature],
    threads: &[Thread],
    validators: Validators<'a>,
) -> Result<Validators<'a>, CheckError>
    ensures { left_by result ≡ passed (known_as signatures.now) (map thread_body (threads_of threads.now)) (left validators.entry) }
{
    let mut rest = validators;
    for thread in threads {
        rest = check_before(signatures, thread.span.from, rest)?;
        check_node(signatures, Zone::InFuture, Target::Nowhere, &thread.body)?;
    }
    Ok(rest)
}

/// Whether a function's body may stand, and each validator before it: then those behind it are left.
fn check_function<'a>(
    signatures: &[Signature],
    function: &Function,
    validators: Validators<'a>,
) -> Result<Validators<'a>, CheckError>
    ensures { left_by result ≡ passed (known_as signatures.now) (function_body (function_of function.now) ∷ []) (left validators.entry) }
{
    let rest = check_before(signatures, function.span.from, validators)?;
    // A function's body is a target of recur.
    let own = Target::Nearest(usize::from(function.parameters), true);
    check_node(signatures, Zone::InFunction, own, &function.body)?;
    Ok(rest)
}

/// Whether each body may stand and each validator may be applied, in script order.
pub fn check_bodies(
    signatures: &[Signature],
    functions: &[Function],
    threads: &[Thread],
    validators: Validators<'_>,
) -> Result<(), CheckError>
    ensures { result ≡ walked (known_as signatures.now) (in_order (functions_of functions.now) (threads_of threads.now)) (left validators.entry) }
{
    let mut validators = validators;
    let mut rest = threads;
    for function in functions {
        let (earlier, later) = rest.split_at(count_before(function.span.from, rest));
        validators = check_threads(signatures, earlier, validators)?;
        validators = check_function(signatures, function, validators)?;
        rest = later;
    }
    let validators = check_threads(signatures, rest, validators)?;
    check_all(signatures, validators)
}

/// How many of so many nodes are left after those of the body; one with more is refused.
fn room_after(left: u32, body: &Node, span: Span) -> Result<u32, CheckError>
    ensures { result ≡ taken left (tree_of body.now) span }
{
    match nodes_left(body, left) {
        Some(rest) => Ok(rest),
        None => Err(CheckError {
            kind: CheckErrorKind::CodeTooLarge,
            at: span,
        }),
    }
}

/// The same after each future's body.
fn room_after_threads(left: u32, threads: &[Thread]) -> Result<u32, CheckError>
    ensures { result ≡ room left (map thread_body (threads_of threads.now)) }
{
    let mut left = left;
    for thread in threads {
        left = room_after(left, &thread.body, thread.span)?;
    }
    Ok(left)
}

/// How many of so many nodes are left after those of all bodies, in script order; the first body with more is
/// refused.
pub fn room_after_all(
    left: u32,
    functions: &[Function],
    threads: &[Thread],
) -> Result<u32, CheckError>
    ensures { result ≡ room left (in_order (functions_of functions.now) (threads_of threads.now)) }
{
    let mut left = left;
    let mut rest = threads;
    for function in functions {
        let (earlier, later) = rest.split_at(count_before(function.span.from, rest));
        left = room_after_threads(left, earlier)?;
        left = room_after(left, &function.body, function.span)?;
        rest = later;
    }
    room_after_threads(left, rest)
}
