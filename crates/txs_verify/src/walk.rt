//! The places that the code of a body comes to, each found once.

ghost use Rattle.std.specs.Prelude.{◌≡◌, ◌<◌, ◌≤◌, ◌+◌, ℕ, List, [], length, Some, Err, IfOk, IfErr, OnOk};
ghost use Rattle.txs_code_meaning.specs.PlainCode.{parameters_of};
ghost use Rattle.txs_value_data.specs.Places.{nth};
ghost use Rattle.txs_verify.specs.Going.{AllJumpWithin, AreReached, Goes, JumpsWithin, no_marks};
ghost use Rattle.txs_verify.specs.Marks.{mark_at, IsClosed};
ghost use Rattle.txs_verify.specs.Refused.{BreaksOff};
ghost use Rattle.txs_verify.specs.declared.error.Stop.TheVariants as stop;
ghost use Rattle.txs_verify.specs.declared.walk.Mark.{Mark as AMark};
ghost use Rattle.txs_verify.specs.Walk.{Gives, Walk, WhereRefused, ends_nothing, looked, next_places, passed, reached, reached_each};

use crate::effect::{depth_behind, txs_behind, wants};
use crate::error::{Refusal, Stop, VerifyErrorKind};
use std::alloc::{AllocError, Global};
use txs_code_meaning::{Body, Instr};

/// How many values are on the stack at a place, and how many transactions of the body are open.
#[derive(Clone, Copy)]
pub struct Mark {
    pub depth: usize,
    pub txs: usize,
}

/// Whether a place may be come to with this mark, where it has an earlier one.
fn agree(earlier: Mark, mark: Mark, to: usize) -> Result<(), Stop>
    ensures gives { (s : Walk) → Gives result s (reached (Some earlier) s to mark) }
    // It needs no memory.
    ensures whole { result ≡ Err stop.Memory → ⊥ }
{
    if earlier.depth != mark.depth {
        return Err(Stop::Refused(Refusal {
            kind: VerifyErrorKind::StackDiffers,
            at: to,
        }));
    }
    if earlier.txs != mark.txs {
        return Err(Stop::Refused(Refusal {
            kind: VerifyErrorKind::TxNesting,
            at: to,
        }));
    }
    Ok(())
}

/// Marks a place, which waits then; or finds that it has this mark.
fn reach(
    marks: &mut Vec<Option<Mark>>,
    waiting: &mut Vec<usize>,
    to: usize,
    mark: Mark,
) -> Result<(), Stop>
    requires { to < length marks.old.items }
    ensures gives { Gives result (marks.new.items, waiting.new.items) (reached (mark_at marks.old.items to) (marks.old.items, waiting.old.items) to mark) }
    ensures many { length marks.new.items ≡ length marks.old.items }
{
    let here = marks[to];
    match here {
        Some(earlier) => agree(earlier, mark, to),
        None => {
            waiting.push(to)?;
            marks[to] = Some(mark);
            Ok(())
        }
    }
}

/// Marks the places that the instruction at a place leads to.
fn reach_next(
    marks: &mut Vec<Option<Mark>>,
    waiting: &mut Vec<usize>,
    at: usize,
    instr: Instr,
    mark: Mark,
) -> Result<(), Stop>
    requires next { at + 1 < length marks.old.items }
    requires jump { JumpsWithin (length marks.old.items) instr }
    ensures { Gives result (marks.new.items, waiting.new.items) (reached_each (next_places at instr) mark (marks.old.items, waiting.old.items)) }
{
    match instr {
        Instr::Jump(to) => reach(marks, waiting, to as usize, mark),
        Instr::JumpFalse(to) => {
            reach(marks, waiting, to as usize, mark)?;
            reach(marks, waiting, at + 1, mark)
        }
        Instr::Return | Instr::Halt => Ok(()),
        _ => reach(marks, waiting, at + 1, mark),
    }
}

/// Whether an instruction ends a transaction where none is open.
fn ends_nothing(instr: Instr, txs: usize) -> bool
    ensures { result ≡ ends_nothing instr txs }
{
    match instr {
        Instr::TxEnd => txs == 0,
        _ => false,
    }
}

/// Goes on from a place with a mark. Behind the last instruction, that one continues past the end; no jump leads there.
fn pass(
    functions: &[Body],
    instrs: &[Instr],
    marks: &mut Vec<Option<Mark>>,
    waiting: &mut Vec<usize>,
    at: usize,
    mark: Mark,
) -> Result<(), Stop>
    requires many { length marks.old.items ≡ length instrs.now + 1 }
    requires jumps { AllJumpWithin instrs.now }
    requires deep { mark.depth < 4294967295 }
    requires nested { mark.txs < 4294967295 }
    ensures { Gives result (marks.new.items, waiting.new.items) (passed (parameters_of functions.now) at mark (nth instrs.now at) (marks.old.items, waiting.old.items)) }
{
    if at >= instrs.len() {
        return Err(Stop::Refused(Refusal {
            kind: VerifyErrorKind::FallsOff,
            at: at.saturating_sub(1),
        }));
    }
    let instr = instrs[at];
    if mark.depth < wants(functions, instr) {
        return Err(Stop::Refused(Refusal {
            kind: VerifyErrorKind::StackLow,
            at,
        }));
    }
    if ends_nothing(instr, mark.txs) {
        return Err(Stop::Refused(Refusal {
            kind: VerifyErrorKind::TxNesting,
            at,
        }));
    }
    let behind = Mark {
        depth: depth_behind(functions, instr, mark.depth),
        txs: txs_behind(instr, mark.txs),
    };
    reach_next(marks, waiting, at, instr, behind)
}

/// Looks at a place, and continues from it where it has a mark.
fn look(
    functions: &[Body],
    instrs: &[Instr],
    marks: &mut Vec<Option<Mark>>,
    waiting: &mut Vec<usize>,
    at: usize,
) -> Result<(), Stop>
    requires place { at < length marks.old.items }
    requires many { length marks.old.items ≡ length instrs.now + 1 }
    requires jumps { AllJumpWithin instrs.now }
    requires low { (m : AMark) → mark_at marks.old.items at ≡ Some m → (m.depth < 4294967295) × (m.txs < 4294967295) }
    ensures { Gives result (marks.new.items, waiting.new.items) (looked (parameters_of functions.now) instrs.now at (mark_at marks.old.items at) (marks.old.items, waiting.old.items)) }
{
    let here = marks[at];
    match here {
        Some(mark) => pass(functions, instrs, marks, waiting, at, mark),
        None => Ok(()),
    }
}

/// Looks at the places that wait until none is left.
fn look_at_each(
    functions: &[Body],
    instrs: &[Instr],
    marks: &mut Vec<Option<Mark>>,
    waiting: &mut Vec<usize>,
) -> Result<(), Stop>
    requires goes { Goes (parameters_of functions.now) instrs.now marks.old.items waiting.old.items }
    requires jumps { AllJumpWithin instrs.now }
    requires few { length instrs.now < 4294967295 }
    ensures goes { OnOk result (Goes (parameters_of functions.now) instrs.now marks.new.items []) }
    ensures refused { IfErr result (λ stop. WhereRefused (λ r. BreaksOff (parameters_of functions.now) instrs.now r.kind r.at) stop) }
{
    while let Some(at) = waiting.pop() {
        look(functions, instrs, marks, waiting, at)?;
    }
    Ok(())
}

/// So many places without a mark.
fn no_marks(alloc: Global, places: usize) -> Result<Vec<Option<Mark>>, AllocError>
    ensures { IfOk result (λ marks. marks.items ≡ no_marks places) }
{
    let mut marks = Vec::with_capacity(alloc, places)?;
    for at in 0..places {
        marks.push_reserved(None);
    }
    Ok(marks)
}

/// Marks the places that a body comes to, each with how many values are on the stack there and how many transactions are open; or
/// refuses the body for what a path of it comes to.
pub fn mark_places(
    alloc: Global,
    functions: &[Body],
    instrs: &[Instr],
) -> Result<Vec<Option<Mark>>, Stop>
    requires jumps { AllJumpWithin instrs.now }
    requires few { length instrs.now < 4294967295 }
    ensures many { IfOk result (λ marks. length marks.items ≡ length instrs.now + 1) }
    ensures closed { IfOk result (λ marks. IsClosed (parameters_of functions.now) instrs.now marks.items) }
    ensures reached { IfOk result (λ marks. AreReached (parameters_of functions.now) instrs.now marks.items) }
    ensures low { IfOk result (λ marks. (p : ℕ) (m : AMark) → mark_at marks.items p ≡ Some m → m.depth ≤ length instrs.now) }
    ensures refused { IfErr result (λ stop. WhereRefused (λ r. BreaksOff (parameters_of functions.now) instrs.now r.kind r.at) stop) }
{
    let mut marks = no_marks(alloc, instrs.len() + 1)?;
    let mut waiting = vec![in alloc; 0]?;
    marks[0] = Some(Mark { depth: 0, txs: 0 });
    look_at_each(functions, instrs, &mut marks, &mut waiting)?;
    Ok(marks)
}
