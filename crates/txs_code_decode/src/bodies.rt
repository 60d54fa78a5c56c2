//! Bodies, read.

ghost use Rattle.std.specs.Prelude.{◌≡◌, ◌-◌, length, IfOk, true};
ghost use Rattle.std.specs.Int.{w32};
ghost use Rattle.txs_code_decode.specs.Format.{Gives, counted, number, sharing_at, tested};
ghost use Rattle.txs_code_decode.specs.CodeForm.{all_instructions, body_format, instructions, parameters_format, paired, functions_format, threads_format, program_format};
ghost use Rattle.txs_code_decode.specs.InstrForm.{placed_format};
ghost use Rattle.txs_code_decode.specs.ValueForm.{at_most};

use crate::error::{CodeErrorKind, Stop, refused};
use crate::fields::{u8_at, u16_at, u32_at};
use crate::instrs::{Instructions, instrs_at};
use std::alloc::Global;
use txs_code_meaning::Body;
use txs_value_data::limits::{MOST_DEFINITIONS, MOST_THREADS};

/// The instructions that all bodies of code may have together.
const MOST_INSTRUCTIONS: usize = 1_000_000;

/// The instructions of a body, behind their count, which is at most so many.
fn counted_instrs_at(
    alloc: Global,
    constants: usize,
    functions: usize,
    left: usize,
    bytes: &[u8],
) -> Result<(Instructions, &[u8]), Stop>
    ensures value { Gives (λ x. (paired x.0.instrs.items x.0.spans.items, x.1.now)) result ((counted (tested (number w32) (at_most left)) (placed_format constants functions)).read bytes.now) }
    ensures as_many { IfOk result (λ x. length x.0.spans.items ≡ length x.0.instrs.items) }
{
    match u32_at(bytes) {
        Ok((count, rest)) => {
            if count as usize > left {
                return Err(refused(CodeErrorKind::TooLarge, bytes));
            }
            instrs_at(alloc, constants, functions, count, rest)
        }
        Err(stop) => Err(stop),
    }
}

/// The number of parameters of a thread or of a function.
fn parameters_at(thread: bool, bytes: &[u8]) -> Result<(u8, &[u8]), Stop>
    ensures { Gives (λ x. (x.0, x.1.now)) result ((parameters_format thread).read bytes.now) }
{
    match u8_at(bytes) {
        Ok((parameters, rest)) => {
            if thread && parameters != 0 {
                return Err(refused(CodeErrorKind::BadOperand, bytes));
            }
            Ok((parameters, rest))
        }
        Err(stop) => Err(stop),
    }
}

/// The body of a thread or of a function, of at most so many instructions.
#[tactic(auto, unfolding(crate::specs::CodeForm::body_format))]
fn body_at(
    alloc: Global,
    thread: bool,
    constants: usize,
    functions: usize,
    left: usize,
    bytes: &[u8],
) -> Result<(Body, &[u8]), Stop>
    ensures { Gives (λ x. (x.0, x.1.now)) result ((body_format thread constants functions left).read bytes.now) }
{
    let (parameters, rest) = parameters_at(thread, bytes)?;
    let (locals, rest) = u8_at(rest)?;
    match counted_instrs_at(alloc, constants, functions, left, rest) {
        Ok((body, rest)) => {
            let Instructions { instrs, spans } = body;
            Ok((Body::new(parameters, locals, instrs, spans), rest))
        }
        Err(stop) => Err(stop),
    }
}

/// How many instructions may come behind a body, of those that might come with it.
fn left_after(left: usize, body: &Body) -> usize
    ensures { result ≡ left - instructions body.now }
{
    left.saturating_sub(body.instrs().len())
}

/// So many threads or functions, which share a limit of instructions.
fn bodies_at(
    alloc: Global,
    thread: bool,
    constants: usize,
    functions: usize,
    limit: usize,
    count: u16,
    bytes: &[u8],
) -> Result<(Vec<Body>, &[u8]), Stop>
    ensures { Gives (λ x. (x.0.items, x.1.now)) result (sharing_at instructions (body_format thread constants functions) count limit bytes.now) }
{
    let mut bodies = Vec::new(alloc);
    let mut left = limit;
    let mut rest = bytes;
    for _ in 0..count {
        match body_at(alloc, thread, constants, functions, left, rest) {
            Ok((body, after)) => {
                left = left_after(left, &body);
                bodies.push(body)?;
                rest = after;
            }
            Err(stop) => return Err(stop),
        }
    }
    Ok((bodies, rest))
}

/// How many instructions may come behind these bodies.
fn instructions_left(bodies: &[Body]) -> usize
    ensures { result ≡ 1000000 - all_instructions bodies.now }
{
    let mut left = MOST_INSTRUCTIONS;
    for body in bodies {
        left = left_after(left, body);
    }
    left
}

/// The functions, where there are so many constants.
#[tactic(auto, unfolding(crate::specs::CodeForm::functions_format))]
fn functions_at(alloc: Global, constants: usize, bytes: &[u8]) -> Result<(Vec<Body>, &[u8]), Stop>
    ensures { Gives (λ x. (x.0.items, x.1.now)) result ((functions_format constants).read bytes.now) }
{
    match u16_at(bytes) {
        Ok((count, rest)) => {
            if usize::from(count) > MOST_DEFINITIONS {
                return Err(refused(CodeErrorKind::TooLarge, bytes));
            }
            let functions = usize::from(count);
            let limit = MOST_INSTRUCTIONS;
            bodies_at(alloc, false, constants, functions, limit, count, rest)
        }
        Err(stop) => Err(stop),
    }
}

/// The threads, where there are so many constants and functions, and so many instructions may yet come.
#[tactic(auto, unfolding(crate::specs::CodeForm::threads_format))]
fn threads_at(
    alloc: Global,
    constants: usize,
    functions: usize,
    left: usize,
    bytes: &[u8],
) -> Result<(Vec<Body>, &[u8]), Stop>
    ensures { Gives (λ x. (x.0.items, x.1.now)) result ((threads_format constants functions left).read bytes.now) }
{
    match u16_at(bytes) {
        Ok((count, rest)) => {
            if usize::from(count) > MOST_THREADS {
                return Err(refused(CodeErrorKind::TooLarge, bytes));
            }
            bodies_at(alloc, true, constants, functions, left, count, rest)
        }
        Err(stop) => Err(stop),
    }
}

/// Functions and threads, where there are so many constants.
#[tactic(auto, unfolding(crate::specs::CodeForm::program_format))]
pub(crate) fn program_at(
    alloc: Global,
    constants: usize,
    bytes: &[u8],
) -> Result<((Vec<Body>, Vec<Body>), &[u8]), Stop>
    ensures { Gives (λ x. ((x.0.0.items, x.0.1.items), x.1.now)) result ((program_format constants).read bytes.now) }
{
    match functions_at(alloc, constants, bytes) {
        Ok((functions, rest)) => {
            let left = instructions_left(&functions);
            match threads_at(alloc, constants, functions.len(), left, rest) {
                Ok((threads, rest)) => Ok(((functions, threads), rest)),
                Err(stop) => Err(stop),
            }
        }
        Err(stop) => Err(stop),
    }
}
