//! Where instructions may be, and what functions are for.

ghost use Rattle.std.specs.Prelude.{◌≡◌, ◌<◌, ◌+◌, length, slice_index_or, IfOk, IfErr};
ghost use Rattle.txs_value_data.specs.Places.{nth};
ghost use Rattle.txs_code_meaning.specs.WellTyped.{form_of};
ghost use Rattle.txs_code_meaning.specs.declared.instr.Instr.{Instr as AnInstr};
ghost use Rattle.txs_verify.specs.Standing.{IsSeen, IsWrong, call_wrong, end_wrong, ends_wrong, first, impure_kind, is_pure, joined, judged, kind_of, kind_wrong, may_be_sent, or_pure, pure_kind, seen_from, send_wrong, unless, wrong};

use crate::alone::{before, is_open};
use crate::error::{Refusal, VerifyErrorKind};
use crate::walk::Mark;
use txs_code_meaning::{Instr, OpenForm};
use txs_value_cell::{CellForm, Standing, UpdateForm};
use txs_value_data::Callee;

/// Whether a body is for transactions alone, for outside alone, or impure: it has a form on cells, a print or a transaction.
#[derive(Clone, Copy)]
pub struct Kind {
    pub inside: bool,
    pub outside: bool,
    pub impure: bool,
}

/// The kind of what isn't pure, and may be so.
fn impure_kind(stands: Standing) -> Kind
    ensures { result ≡ impure_kind stands }
{
    match stands {
        Standing::Anywhere => Kind {
            inside: false,
            outside: false,
            impure: true,
        },
        Standing::Inside => Kind {
            inside: true,
            outside: false,
            impure: true,
        },
        Standing::Outside => Kind {
            inside: false,
            outside: true,
            impure: true,
        },
    }
}

/// The kind of what is pure.
fn pure_kind() -> Kind
    ensures { result ≡ pure_kind }
{
    Kind {
        inside: false,
        outside: false,
        impure: false,
    }
}

/// The kind of a function; pure of one that isn't there.
fn kind_at(kinds: &[Kind], f: u16) -> Kind
    ensures { result ≡ or_pure (nth kinds.now f) }
{
    let f = usize::from(f);
    if f < kinds.len() {
        return kinds[f];
    }
    pure_kind()
}

/// The form that an open begins.
pub(crate) fn form_of(opened: OpenForm) -> UpdateForm
    ensures { result ≡ form_of opened }
{
    match opened {
        OpenForm::Alter => UpdateForm::Alter,
        OpenForm::Commute(_) => UpdateForm::Commute,
        OpenForm::Swap(_) => UpdateForm::Swap,
    }
}

/// The kind of an instruction.
fn kind_of(kinds: &[Kind], instr: Instr) -> Kind
    ensures { result ≡ kind_of kinds.now instr }
{
    match instr {
        Instr::Call(f) => kind_at(kinds, f),
        Instr::Print(_) => impure_kind(Standing::Outside),
        Instr::TxBegin => impure_kind(Standing::Anywhere),
        Instr::Look(look) => impure_kind(CellForm::Look(look).rule().stands),
        Instr::Put(put) => impure_kind(CellForm::Put(put).rule().stands),
        Instr::Open(by, _) => impure_kind(CellForm::Update(form_of(by)).rule().stands),
        Instr::Send(_, _) => impure_kind(CellForm::Send.rule().stands),
        _ => pure_kind(),
    }
}

/// The kind of both together.
fn joined(a: Kind, b: Kind) -> Kind
    ensures { result ≡ joined a b }
{
    Kind {
        inside: a.inside || b.inside,
        outside: a.outside || b.outside,
        impure: a.impure || b.impure,
    }
}

/// What an instruction of this kind, in so many transactions of a body, makes the body.
fn seen_from(txs: usize, kind: Kind) -> Kind
    ensures { result ≡ seen_from txs kind }
{
    Kind {
        inside: txs == 0 && kind.inside,
        outside: txs == 0 && kind.outside,
        impure: kind.impure,
    }
}

/// A refusal, unless this holds.
fn unless(holds: bool, kind: VerifyErrorKind, at: usize) -> Option<Refusal>
    ensures { result ≡ unless holds kind at }
{
    if holds {
        return None;
    }
    Some(Refusal { kind, at })
}

/// The first refusal of two.
fn first(one: Option<Refusal>, other: Option<Refusal>) -> Option<Refusal>
    ensures { result ≡ first one other }
{
    match one {
        None => other,
        Some(refusal) => Some(refusal),
    }
}

/// What is wrong with an end, which is such a body's or not.
fn end_wrong(so: bool, at: usize, mark: Mark) -> Option<Refusal>
    ensures { result ≡ end_wrong so at mark }
{
    let depth = unless(mark.depth == 1, VerifyErrorKind::StackDiffers, at);
    let txs = unless(mark.txs == 0, VerifyErrorKind::TxNesting, at);
    first(unless(so, VerifyErrorKind::FallsOff, at), first(depth, txs))
}

/// What is wrong with a body's end.
fn ends_wrong(thread: bool, at: usize, mark: Mark, instr: Instr) -> Option<Refusal>
    ensures { result ≡ ends_wrong thread at mark instr }
{
    match instr {
        Instr::Return => end_wrong(!thread, at, mark),
        Instr::Halt => end_wrong(thread, at, mark),
        _ => None,
    }
}

/// What is wrong with an instruction of this kind.
fn kind_wrong(thread: bool, at: usize, mark: Mark, kind: Kind) -> Option<Refusal>
    ensures { result ≡ kind_wrong thread at mark kind }
{
    if mark.txs == 0 {
        let lost = thread && kind.inside;
        return unless(!lost, VerifyErrorKind::TxNesting, at);
    }
    unless(!kind.outside, VerifyErrorKind::TxNesting, at)
}

/// Whether a callee is pure.
pub(crate) fn is_pure(kinds: &[Kind], callee: Callee) -> bool
    ensures { result ≡ is_pure kinds.now callee }
{
    match callee {
        Callee::Core(_) => true,
        Callee::Function(f) => !kind_at(kinds, f).impure,
    }
}

/// Whether a callee may be sent: it isn't for transactions alone, as its action runs outside them.
fn may_be_sent(kinds: &[Kind], callee: Callee) -> bool
    ensures { result ≡ may_be_sent kinds.now callee }
{
    match callee {
        Callee::Core(_) => true,
        Callee::Function(f) => !kind_at(kinds, f).inside,
    }
}

/// What is wrong with a callee that is sent.
fn send_wrong(kinds: &[Kind], at: usize, instr: Instr) -> Option<Refusal>
    ensures { result ≡ send_wrong kinds.now at instr }
{
    match instr {
        Instr::Send(callee, _) => unless(
            may_be_sent(kinds, callee),
            VerifyErrorKind::TxNesting,
            at,
        ),
        _ => None,
    }
}

/// What is wrong with a call behind an open, told at the open.
fn call_wrong(kinds: &[Kind], opened: bool, at: usize, instr: Instr) -> Option<Refusal>
    ensures { result ≡ call_wrong kinds.now opened at instr }
{
    if !opened {
        return None;
    }
    match instr {
        Instr::Call(f) => unless(
            !kind_at(kinds, f).impure,
            VerifyErrorKind::TxNesting,
            at.saturating_sub(1),
        ),
        _ => None,
    }
}

/// What is wrong with an instruction at a place with a mark.
fn wrong(
    kinds: &[Kind],
    thread: bool,
    instrs: &[Instr],
    at: usize,
    mark: Mark,
    instr: Instr,
) -> Option<Refusal>
    ensures { result ≡ wrong kinds.now thread instrs.now at mark instr }
{
    let call = call_wrong(kinds, is_open(before(instrs, at)), at, instr);
    let callee = first(send_wrong(kinds, at, instr), call);
    let kind = kind_wrong(thread, at, mark, kind_of(kinds, instr));
    first(ends_wrong(thread, at, mark, instr), first(kind, callee))
}

/// What a body is for as far as a place.
fn judge(
    kinds: &[Kind],
    thread: bool,
    instrs: &[Instr],
    at: usize,
    here: Option<Mark>,
    kind: Kind,
) -> Result<Kind, Refusal>
    requires { at < length instrs.now }
    ensures { (none : AnInstr) → result ≡ judged kinds.now thread instrs.now at here (slice_index_or instrs.now at none) kind }
{
    let Some(mark) = here else {
        return Ok(kind);
    };
    let instr = instrs[at];
    match wrong(kinds, thread, instrs, at, mark, instr) {
        Some(refusal) => Err(refusal),
        None => Ok(joined(kind, seen_from(mark.txs, kind_of(kinds, instr)))),
    }
}

/// Looks at the marked places of a body: what the body is for, or what is wrong with one of them.
pub(crate) fn look_over(
    kinds: &[Kind],
    thread: bool,
    instrs: &[Instr],
    marks: &[Option<Mark>],
) -> Result<Kind, Refusal>
    requires { length marks.now ≡ length instrs.now + 1 }
    ensures seen { IfOk result (λ kind. IsSeen kinds.now thread instrs.now marks.now (length instrs.now) kind) }
    ensures wrong { IfErr result (λ refusal. IsWrong kinds.now thread instrs.now marks.now refusal) }
{
    let mut kind = pure_kind();
    for at in 0..instrs.len() {
        let here = marks[at];
        kind = judge(kinds, thread, instrs, at, here, kind)?;
    }
    Ok(kind)
}
