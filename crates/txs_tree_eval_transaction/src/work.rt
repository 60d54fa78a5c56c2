//! What the forms on cells do in a transaction, on one world of refs, but for applying callees.

ghost use Rattle.std.specs.Prelude.{true, ◌≡◌, ◌||◌, length, OnOk, IfOk, option_copied};
ghost use Rattle.txs_world_protocol.specs.Ask.{buffered};
ghost use Rattle.txs_frame.specs.Frame.{with_cell, has_number, commuted, set_ref, commute_ref, hold_send};
ghost use Rattle.txs_tree_eval_transaction.specs.Worked.{Gives, Finds, Told, RefCell, UpdatesRef, of_one, tx_state, update_begins, update_ends, with_work, with_use};
ghost use Rattle.txs_tree_meaning.specs.Meaning.{Completes, result_of};
ghost use Rattle.txs_tree_meaning.specs.Thread.{is_held};
ghost use Rattle.txs_tree_meaning.specs.Transaction.{own, noted, looked, taken_lacking, tx_look_lacking, done_as};
ghost use Rattle.txs_tree_meaning.specs.View.{mark_of};
ghost use Rattle.txs_tree_eval_transaction.specs.Views.{is_whole, plain_view, world_of};
ghost use Rattle.txs_value_cell.specs.Forms.{cell_of, rule};
ghost use Rattle.txs_value_data.specs.declared.value.Value.TheVariants.{Cell};

use crate::stop::ThreadStop;
use crate::view::TxView;
use std::alloc::AllocError;
use txs_frame::{SetError, TxFrame};
use txs_value_cell::{Action, Arguments, CellForm, LookForm, UpdateForm};
use txs_value_data::{Callee, CellId, Fault, FaultKind, Listed, Span, Value, copy_value};

/// What a transaction has done: its values, sets, ensures, commutes and sends, the refs that it read of the world, by
/// ascending number, and whether the result of a commute was used.
#[derive(Drop)]
pub struct TxWork {
    pub done: TxFrame,
    pub reads: Vec<CellId>,
    pub used: bool,
}

/// The cell that a form takes, or its fault.
pub fn take_cell(
    form: CellForm,
    inside: bool,
    value: &Value,
    span: Span,
) -> Result<CellId, ThreadStop>
    ensures { Told result (result_of (cell_of (rule form) inside value.now) span tt) }
{
    match form.cell_of(inside, value) {
        Ok(cell) => Ok(cell),
        Err(kind) => Err(ThreadStop::Fault(Fault { kind, span })),
    }
}

/// Where the ref with this number is, or where it would be.
fn find(cells: &[CellId], number: u16) -> Result<usize, usize>
    ensures { Finds (λ c. c.number) cells.now number result }
{
    let mut place = 0;
    for cell in cells {
        if cell.number == number {
            return Ok(place);
        }
        if cell.number > number {
            return Err(place);
        }
        place += 1;
    }
    Err(place)
}

/// A cell joins an ascending list, once.
fn join(cells: &mut Vec<CellId>, cell: CellId) -> Result<(), AllocError>
    ensures { OnOk result (cells.new.items ≡ with_cell cells.old.items cell) }
{
    match find(cells.as_slice(), cell.number) {
        Ok(_) => {}
        Err(place) => cells.insert(place, cell)?,
    }
    Ok(())
}

/// Whether the cell with this number is among these.
fn has_number(cells: &[CellId], number: u16) -> bool
    ensures { result ≡ has_number cells.now number }
{
    for cell in cells {
        if cell.number == number {
            return true;
        }
    }
    false
}

impl TxWork {
    /// The ref's value: the transaction's own, else the world's, if that isn't gone.
    fn current(&self, view: &TxView<'_>, cell: CellId) -> Result<Value, ThreadStop>
        ensures { Gives (is_whole view.now.gone) result (tx_state self.now) (looked view.now.gone (world_of (plain_view view.now.refs)) cell (tx_state self.now)) }
    {
        match self.done.value(cell.number) {
            Some(value) => Ok(copy_value(value)?),
            None => {
                if view.lacks(cell.number) {
                    return Err(ThreadStop::Event);
                }
                Ok(view.refs.read(cell.number)?)
            }
        }
    }

    /// A ref that is read joins the reads, unless the transaction has a value of its own; one that was commuted and not
    /// set is used.
    fn note(&mut self, cell: CellId) -> Result<(), AllocError>
        ensures { OnOk result (tx_state self.new ≡ noted cell (own self.old.done cell.number) (tx_state self.old)) }
    {
        if self.done.value(cell.number).is_none() {
            return join(&mut self.reads, cell);
        }
        let commuted = self.done.commuted()?;
        if has_number(commuted.as_slice(), cell.number) {
            self.used = true;
        }
        Ok(())
    }

    /// The ref's value, where it is read.
    pub fn take(&mut self, view: &TxView<'_>, cell: CellId) -> Result<Value, ThreadStop>
        ensures { Gives (is_whole view.now.gone) result (tx_state self.new) (taken_lacking view.now.gone (world_of (plain_view view.now.refs)) cell (tx_state self.old)) }
    {
        let value = self.current(view, cell)?;
        self.note(cell)?;
        Ok(value)
    }

    /// The forms that read a ref.
    pub fn look(
        &mut self,
        view: &TxView<'_>,
        form: LookForm,
        cell: CellId,
    ) -> Result<Value, ThreadStop>
        ensures { Gives (is_whole view.now.gone) result (tx_state self.new) (tx_look_lacking view.now.gone (world_of (plain_view view.now.refs)) form cell (tx_state self.old)) }
    {
        let value = self.take(view, cell)?;
        match form {
            LookForm::Deref => {}
            LookForm::Ensure => self.done.ensure(cell)?,
        }
        Ok(value)
    }

    /// A ref is set, and gives the value.
    pub fn set(&mut self, cell: CellId, value: Value, span: Span) -> Result<Value, ThreadStop>
        requires { RefCell cell }
        ensures { Gives true result (tx_state self.new) (done_as (set_ref cell value self.old.done) span value (tx_state self.old)) }
    {
        let copy = copy_value(&value)?;
        match self.done.set(cell, copy) {
            Ok(()) => Ok(value),
            Err(SetError::SetAfterCommute) => Err(ThreadStop::Fault(Fault {
                kind: FaultKind::SetAfterCommute,
                span,
            })),
            Err(SetError::Memory) => Err(ThreadStop::Memory),
        }
    }

    /// The same of the one value among the arguments.
    pub fn put(
        &mut self,
        cell: CellId,
        mut args: Vec<Value>,
        span: Span,
    ) -> Result<Value, ThreadStop>
        requires cell { RefCell cell }
        requires one { length args.items ≡ 1 }
        ensures { Gives true result (tx_state self.new)
            (of_one (λ v. done_as (set_ref cell v self.old.done) span v (tx_state self.old)) args.items) }
    {
        match args.pop() {
            Some(value) => self.set(cell, value, span),
            None => unreachable!(),
        }
    }

    /// A commute of a ref is kept, and gives the value that the transaction has of it; a wanted result is a use.
    pub fn keep_commute(
        &mut self,
        cell: CellId,
        callee: Callee,
        args: Vec<Value>,
        value: Value,
        wanted: bool,
    ) -> Result<Value, ThreadStop>
        requires { RefCell cell }
        ensures { Gives true result (tx_state self.new)
            (Completes value (with_use (self.old.used || wanted) (commute_ref cell callee args.items value self.old.done) (tx_state self.old))) }
    {
        let copy = copy_value(&value)?;
        self.done
            .commute(cell, callee, Listed::from_vec(args), copy)?;
        self.used = self.used || wanted;
        Ok(value)
    }

    /// The value that a form updates: `alter` reads the ref, `commute` takes the value as it is.
    pub fn begin_update(
        &mut self,
        view: &TxView<'_>,
        form: UpdateForm,
        cell: CellId,
    ) -> Result<Value, ThreadStop>
        requires { UpdatesRef form }
        ensures { Gives (is_whole view.now.gone) result (tx_state self.new) (update_begins view.now.gone (world_of (plain_view view.now.refs)) form cell (tx_state self.old)) }
    {
        match form {
            UpdateForm::Alter => self.take(view, cell),
            UpdateForm::Commute => self.current(view, cell),
            UpdateForm::Swap => unreachable!(),
        }
    }

    /// What a form does with the value that its callee made: `alter` sets the ref, `commute` is kept.
    pub fn end_update(
        &mut self,
        form: UpdateForm,
        cell: CellId,
        callee: Callee,
        args: Vec<Value>,
        new: Value,
        span: Span,
        wanted: bool,
    ) -> Result<Value, ThreadStop>
        requires form { UpdatesRef form }
        requires cell { RefCell cell }
        ensures { Gives true result (tx_state self.new) (update_ends form (mark_of span wanted) cell callee args.items new (tx_state self.old)) }
    {
        match form {
            UpdateForm::Alter => self.set(cell, new, span),
            UpdateForm::Commute => self.keep_commute(cell, callee, args, new, wanted),
            UpdateForm::Swap => unreachable!(),
        }
    }

    /// A send of this callee with these arguments to the agent.
    pub fn send(
        &mut self,
        agent: CellId,
        callee: Callee,
        args: Vec<Value>,
        span: Span,
    ) -> Result<Value, ThreadStop>
        ensures { Gives true result (tx_state self.new)
            (Completes (Cell agent) (with_work (hold_send (record { agent = agent; callee = callee; args = args.items; span = span }) self.old.done) (tx_state self.old))) }
    {
        let args = Arguments::from_vec(args)?;
        self.hold(
            Action {
                agent,
                callee,
                args,
                span,
            },
            Value::Cell(agent),
        )
    }

    /// Whether the ref with this number was set or ensured.
    pub fn is_held(&self, number: u16) -> Result<bool, AllocError>
        ensures { IfOk result (λ b. b ≡ is_held self.now.done number) }
    {
        let sets = self.done.sets()?;
        if has_number(sets.as_slice(), number) {
            return Ok(true);
        }
        Ok(has_number(self.done.ensured(), number))
    }

    /// Whether the ref with this number was commuted and not set.
    pub fn is_redone(&self, number: u16) -> Result<bool, AllocError>
        ensures { IfOk result (λ b. b ≡ has_number (commuted self.now.done) number) }
    {
        let refs = self.done.commuted()?;
        Ok(has_number(refs.as_slice(), number))
    }

    /// A send is held until the commit, and gives the agent.
    pub fn hold(&mut self, action: Action, agent: Value) -> Result<Value, ThreadStop>
        ensures { Gives true result (tx_state self.new) (Completes agent (with_work (hold_send action self.old.done) (tx_state self.old))) }
    {
        self.done.hold_send(action)?;
        Ok(agent)
    }
}
