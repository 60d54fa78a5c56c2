//! Which functions an action may call.

ghost use Rattle.std.specs.Prelude.{◌≡◌, ◌<◌, ◌↔◌, ℕ, suc, true, length, Some, IsTrue, IfOk, OnOk};
ghost use Rattle.txs_code_meaning.specs.PlainCode.{CodeBody, parameters_of};
ghost use Rattle.txs_history_run.specs.Callees.{AreCallees, HandsOutSent, IsBodyOf, IsCallee, IsSentAmong, IsSentAt, IsSentIn, MarksMore, SendWithin, sent_by};
ghost use Rattle.txs_value_data.specs.Places.{nth};
ghost use Rattle.txs_verify.specs.Marks.{mark_at};
ghost use Rattle.txs_verify.specs.declared.walk.Mark.{Mark as AMark};

use std::alloc::{AllocError, Global};
use txs_code_meaning::{Body, Instr, Verified};
use txs_value_apply::takes;
use txs_value_data::Callee;
use txs_verify::walk::{Mark, mark_places};
use txs_world_protocol::Reply;

/// The function that an instruction sends, if it sends one.
fn sent_by(instr: Instr) -> Option<u16>
    ensures { result ≡ sent_by instr }
{
    match instr {
        Instr::Send(Callee::Function(f), _) => Some(f),
        _ => None,
    }
}

/// Marks the function that an instruction sends, if it sends one.
fn mark_sent(marks: &mut Vec<bool>, instr: Instr)
    requires { (f : ℕ) → sent_by instr ≡ Some f → f < length marks.old.items }
    ensures { MarksMore (λ f. sent_by instr ≡ Some f) marks.old.items marks.new.items }
{
    if let Some(f) = sent_by(instr) {
        marks[usize::from(f)] = true;
    }
}

/// Whether a place is marked.
fn is_marked(places: &[Option<Mark>], at: usize) -> bool
    requires { at < length places.now }
    ensures { IsTrue result ↔ ((m : AMark) × (mark_at places.now at ≡ Some m)) }
{
    match places[at] {
        Some(_) => true,
        None => false,
    }
}

/// Marks the function that the instruction at a place sends, if the code comes to the place.
fn mark_place(marks: &mut Vec<bool>, instrs: &[Instr], places: &[Option<Mark>], at: usize)
    requires within { at < length instrs.now }
    requires there { at < length places.now }
    requires sends { SendWithin (length marks.old.items) instrs.now }
    ensures { MarksMore (IsSentAt instrs.now places.now at) marks.old.items marks.new.items }
{
    let marked = is_marked(places, at);
    if marked {
        mark_sent(marks, instrs[at]);
    }
}

/// Marks the functions that a body of the code sends where the code comes to it.
fn mark_body(
    alloc: Global,
    code: &Verified,
    body: &Body,
    marks: &mut Vec<bool>,
) -> Result<(), AllocError>
    requires of { IsBodyOf code.now body.now }
    requires many { length marks.old.items ≡ length code.now.functions }
    ensures many { length marks.new.items ≡ length marks.old.items }
    ensures more { OnOk result (MarksMore (IsSentIn code.now body.now) marks.old.items marks.new.items) }
{
    let (_functions, _threads) = code.rooms();
    let instrs = body.instrs();
    if instrs.len() >= 4_294_967_295 {
        return Ok(());
    }
    let Ok(places) = mark_places(alloc, code.code().functions(), instrs) else {
        return Err(AllocError);
    };
    for at in 0..instrs.len() {
        mark_place(marks, instrs, places.as_slice(), at);
    }
    Ok(())
}

/// Marks the functions that these bodies of the code send.
fn mark_bodies(
    alloc: Global,
    code: &Verified,
    bodies: &[Body],
    marks: &mut Vec<bool>,
) -> Result<(), AllocError>
    requires of { (k : ℕ) (b : CodeBody) → nth bodies.now k ≡ Some b → IsBodyOf code.now b }
    requires many { length marks.old.items ≡ length code.now.functions }
    ensures many { length marks.new.items ≡ length marks.old.items }
    ensures more { OnOk result (MarksMore (IsSentAmong code.now bodies.now (length bodies.now)) marks.old.items marks.new.items) }
{
    for k in 0..bodies.len() {
        mark_body(alloc, code, &bodies[k], marks)?;
    }
    Ok(())
}

/// Of each function of the code, whether it is the callee of a send to which a path of the code comes. A body of 4,294,967,295 instructions or more, as
/// no code has that has a byte form, is left out.
///
/// # Errors
/// `AllocError` where there was no memory.
pub fn sent_functions(alloc: Global, code: &Verified) -> Result<Vec<bool>, AllocError>
    ensures one_each { IfOk result (λ marks. length marks.items ≡ length code.now.functions) }
    ensures callees { IfOk result (λ marks. AreCallees code.now marks.items) }
{
    let functions = code.code().functions();
    let threads = code.code().threads();
    let mut marks = vec![in alloc; false; functions.len()]?;
    mark_bodies(alloc, code, functions, &mut marks)?;
    mark_bodies(alloc, code, threads, &mut marks)?;
    Ok(marks)
}

/// Whether a function is marked.
fn is_callee(marks: &[bool], f: usize) -> bool
    ensures { IsTrue result ↔ (nth marks.now f ≡ Some true) }
{
    f < marks.len() && marks[f]
}

/// Whether there is a function with so many parameters.
fn has_parameters(functions: &[Body], f: usize, count: usize) -> bool
    ensures { IsTrue result ↔ (nth (parameters_of functions.now) f ≡ Some count) }
{
    f < functions.len() && usize::from(functions[f].parameters()) == count
}

/// Whether a function is marked, and takes so many values.
fn takes_so(code: &Verified, marks: &[bool], f: usize, count: usize) -> bool
    requires { AreCallees code.now marks.now }
    ensures { IsTrue result ↔ (IsCallee code.now f × (nth (parameters_of code.now.functions) f ≡ Some count)) }
{
    is_callee(marks, f) && has_parameters(code.code().functions(), f, count)
}

/// Whether a reply hands out no action but one whose callee is an operation or a marked function, and takes the agent's state and the arguments.
#[inline(always)]
pub(crate) fn hands_out(code: &Verified, marks: &[bool], reply: &Reply) -> bool
    requires { AreCallees code.now marks.now }
    ensures { IsTrue result ↔ HandsOutSent code.now reply.now }
{
    match reply {
        Reply::Action { action, .. } => {
            let count = action.args.as_slice().len() + 1;
            match action.callee {
                Callee::Core(op) => takes(op, count),
                Callee::Function(f) => takes_so(code, marks, usize::from(f), count),
            }
        }
        _ => true,
    }
}
