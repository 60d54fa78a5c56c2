//! Equality of code.

ghost use Rattle.std.specs.Prelude.{◌≡◌, ◌↔◌, IsTrue};

use txs_code_meaning::{Body, Code, Instr, OpenForm};
use txs_value_cell::CellDefinition;
use txs_value_data::{Span, same};
use txs_world_protocol::same_values;

/// Whether two opens begin the same, with the same callee.
fn same_open(a: OpenForm, b: OpenForm) -> bool
    ensures { IsTrue result ↔ (a ≡ b) }
{
    match (a, b) {
        (OpenForm::Alter, OpenForm::Alter) => true,
        (OpenForm::Commute(x), OpenForm::Commute(y)) => x == y,
        (OpenForm::Swap(x), OpenForm::Swap(y)) => x == y,
        _ => false,
    }
}

/// Whether two instructions are equal.
fn same_instr(a: Instr, b: Instr) -> bool
    ensures { IsTrue result ↔ (a ≡ b) }
{
    match (a, b) {
        (Instr::Const(x), Instr::Const(y)) => x == y,
        (Instr::Local(x), Instr::Local(y)) => x == y,
        (Instr::Store(x), Instr::Store(y)) => x == y,
        (Instr::Pop, Instr::Pop) => true,
        (Instr::Jump(x), Instr::Jump(y)) => x == y,
        (Instr::JumpFalse(x), Instr::JumpFalse(y)) => x == y,
        (Instr::Core(op, x), Instr::Core(other, y)) => op == other && x == y,
        (Instr::Call(x), Instr::Call(y)) => x == y,
        (Instr::Return, Instr::Return) => true,
        (Instr::Vector(x), Instr::Vector(y)) => x == y,
        (Instr::Print(x), Instr::Print(y)) => x == y,
        (Instr::Look(x), Instr::Look(y)) => x == y,
        (Instr::Put(x), Instr::Put(y)) => x == y,
        (Instr::TxBegin, Instr::TxBegin) => true,
        (Instr::TxEnd, Instr::TxEnd) => true,
        (Instr::Open(form, x), Instr::Open(other, y)) => same_open(form, other) && x == y,
        (Instr::Close(x), Instr::Close(y)) => x == y,
        (Instr::Send(callee, x), Instr::Send(other, y)) => callee == other && x == y,
        (Instr::Halt, Instr::Halt) => true,
        _ => false,
    }
}

/// Whether instructions are equal, one by one.
fn same_instrs(a: &[Instr], b: &[Instr]) -> bool
    ensures { IsTrue result ↔ (a.now ≡ b.now) }
{
    if a.len() != b.len() {
        return false;
    }
    for i in 0..a.len() {
        if !same_instr(a[i], b[i]) {
            return false;
        }
    }
    true
}

/// Whether spans are equal, one by one.
fn same_spans(a: &[Span], b: &[Span]) -> bool
    ensures { IsTrue result ↔ (a.now ≡ b.now) }
{
    if a.len() != b.len() {
        return false;
    }
    for i in 0..a.len() {
        if a[i] != b[i] {
            return false;
        }
    }
    true
}

/// Whether two bodies are equal.
fn same_body(a: &Body, b: &Body) -> bool
    ensures { IsTrue result ↔ (a.now ≡ b.now) }
{
    a.parameters() == b.parameters()
        && a.locals() == b.locals()
        && same_instrs(a.instrs(), b.instrs())
        && same_spans(a.spans(), b.spans())
}

/// Whether bodies are equal, one by one.
fn same_bodies(a: &[Body], b: &[Body]) -> bool
    ensures { IsTrue result ↔ (a.now ≡ b.now) }
{
    if a.len() != b.len() {
        return false;
    }
    for i in 0..a.len() {
        if !same_body(&a[i], &b[i]) {
            return false;
        }
    }
    true
}

/// Whether two cells are defined alike.
fn same_cell(a: &CellDefinition, b: &CellDefinition) -> bool
    ensures { IsTrue result ↔ (a.now ≡ b.now) }
{
    a.kind == b.kind
        && a.error_mode == b.error_mode
        && a.name.as_bytes() == b.name.as_bytes()
        && same(&a.opening, &b.opening)
        && a.validator == b.validator
}

/// Whether cells are defined alike, one by one.
fn same_cells(a: &[CellDefinition], b: &[CellDefinition]) -> bool
    ensures { IsTrue result ↔ (a.now ≡ b.now) }
{
    if a.len() != b.len() {
        return false;
    }
    for i in 0..a.len() {
        if !same_cell(&a[i], &b[i]) {
            return false;
        }
    }
    true
}

/// Whether two codes are equal: their cells, constants and bodies with their spans. It takes no memory.
pub fn same_code(a: &Code, b: &Code) -> bool
    ensures { IsTrue result ↔ (a.now ≡ b.now) }
{
    same_cells(a.cells(), b.cells())
        && same_values(a.constants(), b.constants())
        && same_bodies(a.functions(), b.functions())
        && same_bodies(a.threads(), b.threads())
}
