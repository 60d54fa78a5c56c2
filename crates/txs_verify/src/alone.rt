//! What may be wrong with an instruction alone.

ghost use Rattle.std.specs.Prelude.{◌≡◌, ◌<◌, ℕ, length, is_some, nat_eq, IfErr, OnOk};
ghost use Rattle.txs_world_protocol.specs.Ask.{same_callee};
ghost use Rattle.txs_code_meaning.specs.PlainCode.{parameters_of};
ghost use Rattle.txs_code_meaning.specs.declared.instr.Instr.{Instr as AnInstr};
ghost use Rattle.txs_value_data.specs.Places.{nth};
ghost use Rattle.txs_verify.specs.Alone.{IsRightBody, IsWrongAlone, IsRight, applies, closes, fault, has_count, has_local, has_so_many, in_order, is_behind, is_below, is_followed, is_named, is_so_many, jumps_within, named_is_below, opens_form, same_form, takes_so};
ghost use Rattle.txs_verify.specs.Paths.{before, before_that, opens};

use crate::error::{Refusal, VerifyErrorKind};
use crate::standing::form_of;
use txs_code_meaning::{Body, Instr, OpenForm};
use txs_value_apply::takes;
use txs_value_cell::UpdateForm;
use txs_value_data::Callee;

/// The instruction at a place, if there is one.
fn instr_at(instrs: &[Instr], at: usize) -> Option<Instr>
    ensures { result ≡ nth instrs.now at }
{
    if at < instrs.len() {
        return Some(instrs[at]);
    }
    None
}

/// The instruction one place before.
pub(crate) fn before(instrs: &[Instr], at: usize) -> Option<Instr>
    ensures { result ≡ before instrs.now at }
{
    if at < 1 {
        return None;
    }
    instr_at(instrs, at - 1)
}

/// The instruction two places before.
fn before_that(instrs: &[Instr], at: usize) -> Option<Instr>
    ensures { result ≡ before_that instrs.now at }
{
    if at < 2 {
        return None;
    }
    instr_at(instrs, at - 2)
}

/// Whether it is an open.
pub(crate) fn is_open(instr: Option<Instr>) -> bool
    ensures { result ≡ is_some (opens instr) }
{
    match instr {
        Some(Instr::Open(_, _)) => true,
        _ => false,
    }
}

/// Whether a place is behind an open, up to its close.
fn is_behind(instrs: &[Instr], to: usize) -> bool
    ensures { result ≡ is_behind instrs.now to }
{
    if is_open(before(instrs, to)) {
        return true;
    }
    is_open(before_that(instrs, to))
}

/// Whether an instruction jumps to one of so many places, if it jumps.
fn jumps_within(places: usize, instr: Instr) -> bool
    ensures { result ≡ jumps_within places instr }
{
    match instr {
        Instr::Jump(to) | Instr::JumpFalse(to) => (to as usize) < places,
        _ => true,
    }
}

/// Whether an instruction names one of so many locals, if it names any.
fn has_local(locals: u8, instr: Instr) -> bool
    ensures { result ≡ has_local locals instr }
{
    match instr {
        Instr::Local(i) | Instr::Store(i) => i < locals,
        _ => true,
    }
}

/// Whether a function has so many parameters; otherwise this, of one that isn't there.
pub(crate) fn has_parameters(functions: &[Body], f: u16, count: usize, otherwise: bool) -> bool
    ensures present { (m : ℕ) → nth (parameters_of functions.now) f ≡ Some m → result ≡ nat_eq m count }
    ensures absent { nth (parameters_of functions.now) f ≡ None → result ≡ otherwise }
{
    let f = usize::from(f);
    if f < functions.len() {
        return usize::from(functions[f].parameters()) == count;
    }
    otherwise
}

/// Whether a callee takes so many values, where it is there.
fn takes_so(functions: &[Body], callee: Callee, count: usize) -> bool
    ensures { result ≡ takes_so (parameters_of functions.now) callee count }
{
    match callee {
        Callee::Core(op) => takes(op, count),
        Callee::Function(f) => has_parameters(functions, f, count, true),
    }
}

/// Whether an operation or callee gets as many values as it takes.
fn has_count(functions: &[Body], instr: Instr) -> bool
    ensures { result ≡ has_count (parameters_of functions.now) instr }
{
    match instr {
        Instr::Core(op, n) => takes(op, usize::from(n)),
        Instr::Open(OpenForm::Commute(callee) | OpenForm::Swap(callee), n) => {
            takes_so(functions, callee, usize::from(n) + 1)
        }
        Instr::Send(callee, n) => takes_so(functions, callee, usize::from(n) + 1),
        _ => true,
    }
}

/// Whether a callee is an operation or one of the first so many functions.
fn is_below(callable: usize, callee: Callee) -> bool
    ensures { result ≡ is_below callable callee }
{
    match callee {
        Callee::Core(_) => true,
        Callee::Function(f) => usize::from(f) < callable,
    }
}

/// Whether the callee that an open names is one.
fn named_is_below(callable: usize, opened: OpenForm) -> bool
    ensures { result ≡ named_is_below callable opened }
{
    match opened {
        OpenForm::Alter => true,
        OpenForm::Commute(callee) | OpenForm::Swap(callee) => is_below(callable, callee),
    }
}

/// Whether two callees are the same.
fn same_callee(a: Callee, b: Callee) -> bool
    ensures { result ≡ same_callee a b }
{
    match (a, b) {
        (Callee::Core(x), Callee::Core(y)) => x == y,
        (Callee::Function(f), Callee::Function(g)) => f == g,
        _ => false,
    }
}

/// Whether the callee of an open may be this one.
fn is_named(opened: OpenForm, callee: Callee) -> bool
    ensures { result ≡ is_named opened callee }
{
    match opened {
        OpenForm::Alter => true,
        OpenForm::Commute(named) | OpenForm::Swap(named) => same_callee(named, callee),
    }
}

/// Whether two forms are the same.
fn same_form(a: UpdateForm, b: UpdateForm) -> bool
    ensures { result ≡ same_form a b }
{
    match (a, b) {
        (UpdateForm::Alter, UpdateForm::Alter)
        | (UpdateForm::Commute, UpdateForm::Commute)
        | (UpdateForm::Swap, UpdateForm::Swap) => true,
        _ => false,
    }
}

/// Whether it is the operation or call of a callee that an open names, on so many values.
fn applies(functions: &[Body], opened: OpenForm, count: usize, instr: Option<Instr>) -> bool
    ensures { result ≡ applies (parameters_of functions.now) opened count instr }
{
    match instr {
        Some(Instr::Core(op, m)) => {
            let named = is_named(opened, Callee::Core(op));
            usize::from(m) == count && named
        }
        Some(Instr::Call(f)) => {
            let named = is_named(opened, Callee::Function(f));
            has_parameters(functions, f, count, false) && named
        }
        _ => false,
    }
}

/// Whether it is the close of a form.
fn closes(form: UpdateForm, instr: Option<Instr>) -> bool
    ensures { result ≡ closes form instr }
{
    match instr {
        Some(Instr::Close(closed)) => same_form(closed, form),
        _ => false,
    }
}

/// Whether it is an open of a form.
fn opens_form(form: UpdateForm, instr: Option<Instr>) -> bool
    ensures { result ≡ opens_form form instr }
{
    match instr {
        Some(Instr::Open(by, _)) => same_form(form_of(by), form),
        _ => false,
    }
}

/// Whether behind an open stand its call and its close.
fn is_followed(
    functions: &[Body],
    instrs: &[Instr],
    at: usize,
    opened: OpenForm,
    count: usize,
) -> bool
    requires place { at < length instrs.now }
    requires few { length instrs.now < 4294967295 }
    requires small { count < 65536 }
    ensures { result ≡ is_followed (parameters_of functions.now) instrs.now at opened count }
{
    let called = applies(functions, opened, count + 1, instr_at(instrs, at + 1));
    let closed = closes(form_of(opened), instr_at(instrs, at + 2));
    called && closed
}

/// Whether an instruction is in order, where a body may call the first so many functions.
fn in_order(functions: &[Body], callable: usize, instrs: &[Instr], at: usize, instr: Instr) -> bool
    requires place { at < length instrs.now }
    requires few { length instrs.now < 4294967295 }
    ensures { result ≡ in_order callable (parameters_of functions.now) instrs.now at instr }
{
    match instr {
        Instr::Jump(to) | Instr::JumpFalse(to) => !is_behind(instrs, to as usize),
        Instr::Call(f) => usize::from(f) < callable,
        Instr::Open(by, n) => {
            let followed = is_followed(functions, instrs, at, by, usize::from(n));
            named_is_below(callable, by) && followed
        }
        Instr::Close(closed) => opens_form(closed, before_that(instrs, at)),
        Instr::Send(callee, _) => is_below(callable, callee),
        _ => true,
    }
}

/// What is wrong with an instruction alone, looked at in this order.
fn fault(
    functions: &[Body],
    callable: usize,
    instrs: &[Instr],
    locals: u8,
    at: usize,
    instr: Instr,
) -> Option<VerifyErrorKind>
    requires place { at < length instrs.now }
    requires few { length instrs.now < 4294967295 }
    ensures { result ≡ fault callable (parameters_of functions.now) instrs.now locals at instr }
{
    if !jumps_within(instrs.len(), instr) {
        return Some(VerifyErrorKind::JumpOut);
    }
    if !has_local(locals, instr) {
        return Some(VerifyErrorKind::LocalOut);
    }
    if !has_count(functions, instr) {
        return Some(VerifyErrorKind::ArityWrong);
    }
    if !in_order(functions, callable, instrs, at, instr) {
        return Some(VerifyErrorKind::CallOrder);
    }
    None
}

/// Looks at an instruction alone.
fn look_alone_at(functions: &[Body], callable: usize, body: &Body, at: usize) -> Result<(), Refusal>
    requires place { at < length body.now.instrs }
    requires few { length body.now.instrs < 4294967295 }
    ensures right { OnOk result ((i : AnInstr) → nth body.now.instrs at ≡ Some i → IsRight callable (parameters_of functions.now) body.now at i) }
    ensures wrong { IfErr result (λ r. IsWrongAlone callable (parameters_of functions.now) body.now r.kind r.at) }
    ensures place { IfErr result (λ r. r.at ≡ at) }
{
    let instrs = body.instrs();
    match fault(functions, callable, instrs, body.locals(), at, instrs[at]) {
        Some(kind) => Err(Refusal { kind, at }),
        None => Ok(()),
    }
}

/// Looks at the instructions of a body, each alone, where the body may call the first so many functions: all are right, or the first
/// that isn't is reported.
pub(crate) fn look_alone(functions: &[Body], callable: usize, body: &Body) -> Result<(), Refusal>
    requires { length body.now.instrs < 4294967295 }
    ensures right { OnOk result (IsRightBody callable (parameters_of functions.now) body.now) }
    ensures wrong { IfErr result (λ r. IsWrongAlone callable (parameters_of functions.now) body.now r.kind r.at) }
    ensures first { IfErr result (λ r. (at : ℕ) (i : AnInstr) → at < r.at → nth body.now.instrs at ≡ Some i → IsRight callable (parameters_of functions.now) body.now at i) }
{
    if body.locals() < body.parameters() {
        return Err(Refusal {
            kind: VerifyErrorKind::LocalOut,
            at: 0,
        });
    }
    for at in 0..body.instrs().len() {
        look_alone_at(functions, callable, body, at)?;
    }
    Ok(())
}
