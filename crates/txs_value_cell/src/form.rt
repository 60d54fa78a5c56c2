//! The forms on cells, in families, and the table of what each of them takes and where it may be.

ghost use Rattle.std.specs.Prelude.{◌≡◌, ◌↔◌, IsTrue, Some};
ghost use Rattle.txs_value_cell.specs.Forms.{cell_of, may_stand, rule, same_kind};
ghost use Rattle.txs_value_data.specs.declared.fault.FaultKind.TheVariants.{NotARef, NotAnAtom};
ghost use Rattle.txs_value_cell.specs.declared.form.Standing.TheVariants.{Inside, Outside};
ghost use Rattle.txs_value_data.specs.declared.value.CellKind.TheVariants.{Ref, Atom};

use txs_value_data::{CellId, CellKind, FaultKind, Value};

/// Forms that read a cell.
#[derive(Clone, Copy)]
pub enum LookForm {
    /// `deref`, also written `@`
    Deref,
    /// `ensure`
    Ensure,
}

/// Forms that give a cell a value.
#[derive(Clone, Copy)]
pub enum PutForm {
    /// `ref-set`
    RefSet,
    /// `reset!`
    Reset,
}

/// Forms that give a cell what a callee makes of its value.
#[derive(Clone, Copy)]
pub enum UpdateForm {
    /// `alter`
    Alter,
    /// `commute`
    Commute,
    /// `swap!`
    Swap,
}

/// All forms on cells.
#[derive(Clone, Copy)]
pub enum CellForm {
    /// It reads the cell.
    Look(LookForm),
    /// It gives the cell a value.
    Put(PutForm),
    /// It gives the cell what a callee makes of its value.
    Update(UpdateForm),
    /// `send`
    Send,
}

/// Where a form may be.
#[derive(Clone, Copy)]
pub enum Standing {
    /// In transactions and outside them.
    Anywhere,
    /// In transactions alone.
    Inside,
    /// Outside transactions alone.
    Outside,
}

/// What a form asks of the shared state before it gives its value. What a transaction asks where it begins and ends, it asks
/// for all its forms together.
#[derive(Clone, Copy)]
pub enum FormAsk {
    /// Nothing, since the transaction keeps what it says.
    Nothing,
    /// A cell's value: that of a ref at the transaction's read point, unless it has one of its own; outside the newest.
    ItsValue,
    /// That an atom gets a value, whatever it holds.
    Replacing,
    /// An atom's value and its place, and then that it gets another, if it is still as it was there; or, where the callee
    /// faults, that the swap is over.
    Swapping,
    /// That an action is sent; in a transaction nothing, which keeps it up to its end.
    Sending,
}

/// What a form takes: the kind of cell, any where there is none; where it may be; the fault of anything else; and what it
/// asks of the shared state.
#[derive(Clone, Copy)]
pub struct FormRule {
    pub takes: Option<CellKind>,
    pub stands: Standing,
    pub fault: FaultKind,
    pub asks: FormAsk,
}

/// The rule of forms on refs, which are in transactions alone.
fn rule_of_ref(asks: FormAsk) -> FormRule
    ensures { result ≡ record { takes = Some Ref; stands = Inside; fault = NotARef; asks = asks } }
{
    FormRule {
        takes: Some(CellKind::Ref),
        stands: Standing::Inside,
        fault: FaultKind::NotARef,
        asks,
    }
}

/// The rule of forms on atoms, which are outside transactions alone.
fn rule_of_atom(asks: FormAsk) -> FormRule
    ensures { result ≡ record { takes = Some Atom; stands = Outside; fault = NotAnAtom; asks = asks } }
{
    FormRule {
        takes: Some(CellKind::Atom),
        stands: Standing::Outside,
        fault: FaultKind::NotAnAtom,
        asks,
    }
}

impl CellForm {
    /// The form's row in the table.
    pub fn rule(self) -> FormRule
        ensures { result ≡ rule self }
    {
        match self {
            CellForm::Look(LookForm::Deref) => FormRule {
                takes: None,
                stands: Standing::Anywhere,
                fault: FaultKind::NotACell,
                asks: FormAsk::ItsValue,
            },
            CellForm::Look(LookForm::Ensure)
            | CellForm::Update(UpdateForm::Alter | UpdateForm::Commute) => {
                rule_of_ref(FormAsk::ItsValue)
            }
            CellForm::Put(PutForm::RefSet) => rule_of_ref(FormAsk::Nothing),
            CellForm::Put(PutForm::Reset) => rule_of_atom(FormAsk::Replacing),
            CellForm::Update(UpdateForm::Swap) => rule_of_atom(FormAsk::Swapping),
            CellForm::Send => FormRule {
                takes: Some(CellKind::Agent),
                stands: Standing::Anywhere,
                fault: FaultKind::NotAnAgent,
                asks: FormAsk::Sending,
            },
        }
    }

    /// The cell that the form takes of a value, in a running transaction or outside; else its fault.
    pub fn cell_of(self, inside: bool, value: &Value) -> Result<CellId, FaultKind>
        ensures { result ≡ cell_of (rule self) inside value.now }
    {
        let rule = self.rule();
        let Value::Cell(cell) = value else {
            return Err(rule.fault);
        };
        match rule.takes {
            Some(kind) if is_of_kind(*cell, kind) => Ok(*cell),
            Some(_) => Err(rule.fault),
            None if !inside || is_of_kind(*cell, CellKind::Ref) => Ok(*cell),
            None => Err(FaultKind::OutsideOnly),
        }
    }
}

impl Standing {
    /// Whether a form may be in a running transaction, or outside.
    pub fn allows(self, inside: bool) -> bool
        ensures { result ≡ may_stand self inside }
    {
        match self {
            Standing::Anywhere => true,
            Standing::Inside => inside,
            Standing::Outside => !inside,
        }
    }
}

/// Whether a cell is of a kind.
fn is_of_kind(cell: CellId, kind: CellKind) -> bool
    ensures { result ≡ same_kind cell.kind kind }
{
    matches!(
        (cell.kind, kind),
        (CellKind::Ref, CellKind::Ref)
            | (CellKind::Atom, CellKind::Atom)
            | (CellKind::Agent, CellKind::Agent)
    )
}
