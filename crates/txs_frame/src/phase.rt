//! What a transaction does at its end before it commits.

ghost use Rattle.std.specs.Prelude.{◌≡◌, ◌<◌, ◌++◌, true, is_some, length, map, IfOk, OnOk};
ghost use Rattle.txs_world_protocol.specs.Ask.{buffered, with_write};
ghost use Rattle.txs_value_cell.specs.Cells.{validators_of, validator_at};
ghost use Rattle.txs_frame.specs.Frame.{PlainTxFrame, by_ref, commuted, commutes_of, written};
ghost use Rattle.txs_frame.specs.Kept.{Ascends, IsPlaceOf, item_of};
ghost use Rattle.txs_frame.specs.Phase.{IsPhase, arguments_of, behind_next, blank, filled, given, next_arguments, next_callee, tasks_of, to_write, validates_next, validations, value_or_nil, write_number};
ghost use Rattle.txs_frame.specs.declared.frame.Commute.{Commute as ACommute};
ghost use Rattle.txs_frame.specs.declared.phase.Task.TheVariants.{Redoes as redoes};

use crate::frame::{Commute, TxFrame};
use std::alloc::{AllocError, Global};
use std::marker::Model;
use std::mem;
use txs_value_cell::CellDefinition;
use txs_value_data::{Callee, CellId, Listed, Value, copy_value, copy_values};

/// What a transaction has to do at its end before it commits.
#[derive(Drop)]
pub enum Task {
    /// A commute is applied again.
    Redoes(Commute),
    /// A ref's validator looks at what the ref is to get.
    Validates(CellId, Callee),
}

/// What is left to do at a transaction's end: the refs that were commuted and not set with their values so far, and the tasks that
/// are still to be done, the commutes before the validators, each ref by ref by ascending number.
pub struct Phase {
    alloc: Global,
    values: Vec<(CellId, Value)>,
    work: Vec<Task>,
    next: usize,
}

// Dropped by a call that is proved here, so that no crate above proves it again.
impl Drop for Phase {
    fn drop(self) {
        let Phase {
            alloc: _,
            values,
            work,
            next: _,
        } = self;
        drop(values);
        drop(work);
    }
}

impl Model for Phase {
    ghost use Rattle.std.specs.Coded.{codes};
    ghost use Rattle.std.specs.Prelude.{drop};
    ghost use Rattle.txs_value_data.specs.contracts.value.Value as value;
    ghost use Rattle.txs_frame.specs.Phase.{PlainPhase, IsPhase};

    ghost Value = { PlainPhase };

    ghost coded = { Prim.hlevel (codes, value.the_row.coded) };

    ghost view = { λ p. record { work = drop p.next p.work.items; values = p.values.items } };

    ghost invariant = { λ p. IsPhase p.values.items (drop p.next p.work.items) };
}

/// The place of the ref with this number, or where it would be.
fn find_write(values: &[(CellId, Value)], number: u16) -> Result<usize, usize>
    requires { Ascends write_number 0 values.now }
    ensures { IsPlaceOf write_number values.now number result }
{
    values.binary_search_by_key(&number, |write| write.0.number)
}

/// The value of the ref with this number, which the list goes on sharing; nil where it has none.
fn viewed(values: &[(CellId, Value)], number: u16) -> Result<Value, AllocError>
    requires { Ascends write_number 0 values.now }
    ensures { IfOk result (λ v. v ≡ value_or_nil (buffered values.now number)) }
{
    match find_write(values, number) {
        Ok(i) => copy_value(&values[i].1),
        Err(_) => Ok(Value::Nil),
    }
}

/// These refs with their values, which both lists share.
fn copied(alloc: Global, all: &[(CellId, Value)]) -> Result<Vec<(CellId, Value)>, AllocError>
    ensures { IfOk result (λ ws. ws.items ≡ all.now) }
{
    let mut writes = Vec::with_capacity(alloc, all.len())?;
    for write in all {
        writes.push_reserved((write.0, copy_value(&write.1)?));
    }
    Ok(writes)
}

/// A ref that has a value gets another.
fn put_value(values: &mut Vec<(CellId, Value)>, cell: CellId, value: Value)
    requires ascend { Ascends write_number 0 values.old.items }
    requires there { is_some (item_of write_number values.old.items cell.number) ≡ true }
    ensures { values.new.items ≡ with_write values.old.items cell value }
{
    if let Ok(i) = find_write(values.as_slice(), cell.number) {
        values[i] = (cell, value);
    }
}

/// Each ref gets the value in its place.
fn fill_values(writes: &mut Vec<(CellId, Value)>, values: Listed<Value>)
    requires { length values ≡ length writes.old.items }
    ensures { writes.new.items ≡ filled writes.old.items values }
{
    let mut left = values.into_vec();
    while let Some(value) = left.pop() {
        let place = left.len();
        drop(mem::replace(&mut writes[place].1, value));
    }
}

/// The validator of the cell with this number, if these definitions give it one.
pub fn validator_of(cells: &[CellDefinition], number: u16) -> Option<Callee>
    ensures { result ≡ validator_at (validators_of cells.now) number }
{
    match cells.get(number as usize) {
        Some(cell) => cell.validator,
        None => None,
    }
}

/// What a commute is called on: its ref's value, and its further arguments.
fn commute_arguments(
    alloc: Global,
    values: &[(CellId, Value)],
    commute: &Commute,
) -> Result<Vec<Value>, AllocError>
    requires { Ascends write_number 0 values.now }
    ensures { IfOk result (λ vs. vs.items ≡ arguments_of commute.now values.now) }
{
    let args = commute.args.as_slice();
    let mut all = Vec::with_capacity(alloc, args.len() + 1)?;
    all.push_reserved(viewed(values, commute.cell.number)?);
    for value in args {
        all.push_reserved(copy_value(value)?);
    }
    Ok(all)
}

/// What the ref with this number is to get: what its commutes made of the viewed value, else what the transaction set.
fn value_to_write(
    values: &[(CellId, Value)],
    frame: &TxFrame,
    number: u16,
) -> Result<Value, AllocError>
    requires { Ascends write_number 0 values.now }
    ensures { IfOk result (λ v. v ≡ to_write values.now frame.now number) }
{
    match find_write(values, number) {
        Ok(i) => copy_value(&values[i].1),
        Err(_) => match frame.value(number) {
            Some(value) => copy_value(value),
            None => Ok(Value::Nil),
        },
    }
}

/// The commutes of the ref with this number are tasks, too, behind those that there are.
fn push_redone_of(
    alloc: Global,
    tasks: &mut Vec<Task>,
    number: u16,
    commutes: &[Commute],
) -> Result<(), AllocError>
    ensures { OnOk result (tasks.new.items ≡ tasks.old.items ++ map redoes (commutes_of number commutes.now)) }
{
    for commute in commutes {
        if commute.cell.number == number {
            tasks.reserve(1)?;
            tasks.push_reserved(Task::Redoes(Commute {
                cell: commute.cell,
                callee: commute.callee,
                args: copy_values(alloc, &commute.args)?,
            }));
        }
    }
    Ok(())
}

/// The validators of these refs are tasks, too, behind those that there are.
fn push_validations(
    tasks: &mut Vec<Task>,
    cells: &[CellDefinition],
    refs: &[CellId],
) -> Result<(), AllocError>
    ensures { OnOk result (tasks.new.items ≡ tasks.old.items ++ validations (validators_of cells.now) refs.now) }
{
    for cell in refs {
        match validator_of(cells, cell.number) {
            Some(callee) => tasks.push(Task::Validates(*cell, callee))?,
            None => (),
        }
    }
    Ok(())
}

impl TxFrame {
    /// The tasks of this transaction's end, where the cells are defined so, before its refs are viewed: each is nil until then. All
    /// the memory that the answer to that wants is taken here.
    pub fn phase(&self, alloc: Global, cells: &[CellDefinition]) -> Result<Phase, AllocError>
        ensures { IfOk result (λ p. p ≡ record { work = tasks_of (validators_of cells.now) self.now; values = blank (commuted self.now) }) }
    {
        let commuted = self.commuted()?;
        let refs = commuted.as_slice();
        let work = self.tasks_on(alloc, cells, refs)?;
        let mut values = Vec::with_capacity(alloc, refs.len())?;
        for cell in refs {
            values.push_reserved((*cell, Value::Nil));
        }
        Ok(Phase::begin(alloc, values, work))
    }

    /// The tasks where these refs are commuted and not set: their commutes, ref by ref, and then the validators of all that is written.
    fn tasks_on(
        &self,
        alloc: Global,
        cells: &[CellDefinition],
        refs: &[CellId],
    ) -> Result<Vec<Task>, AllocError>
        ensures { IfOk result (λ tasks. tasks.items ≡ map redoes (by_ref refs.now self.now.commutes) ++ validations (validators_of cells.now) (written self.now)) }
    {
        let mut tasks = Vec::new(alloc);
        for cell in refs {
            push_redone_of(alloc, &mut tasks, cell.number, self.commutes())?;
        }
        let written = self.written()?;
        push_validations(&mut tasks, cells, written.as_slice())?;
        Ok(tasks)
    }
}

impl Phase {
    /// A phase of which nothing is done yet.
    fn begin(alloc: Global, values: Vec<(CellId, Value)>, work: Vec<Task>) -> Phase
        requires { IsPhase values.items work.items }
        ensures { result ≡ record { work = work.items; values = values.items } }
    {
        Phase {
            alloc,
            values,
            work,
            next: 0,
        }
    }

    /// The refs were viewed, and have these values.
    pub fn fill(&mut self, values: Listed<Value>)
        requires { length values ≡ length self.old.values }
        ensures { self.new ≡ record self.old { values = filled self.old.values values } }
    {
        fill_values(&mut self.values, values);
    }

    /// What the next task applies, if one is left.
    pub fn callee(&self) -> Option<Callee>
        ensures { result ≡ next_callee self.now.work }
    {
        match self.work.get(self.next) {
            Some(Task::Redoes(commute)) => Some(commute.callee),
            Some(Task::Validates(_, callee)) => Some(*callee),
            None => None,
        }
    }

    /// Whether the next task is a validator's.
    pub fn validates(&self) -> bool
        ensures { result ≡ validates_next self.now.work }
    {
        if let Some(Task::Validates(_, _)) = self.work.get(self.next) {
            return true;
        }
        false
    }

    /// What the next task's callee is called on, in the transaction of this frame.
    pub fn arguments(&self, frame: &TxFrame) -> Result<Vec<Value>, AllocError>
        requires { 0 < length self.now.work }
        ensures { IfOk result (λ vs. vs.items ≡ next_arguments self.now.work self.now.values frame.now) }
    {
        match &self.work[self.next] {
            Task::Redoes(commute) => {
                commute_arguments(self.alloc, self.values.as_slice(), commute)
            }
            Task::Validates(cell, _) => {
                let mut all = Vec::with_capacity(self.alloc, 1)?;
                all.push_reserved(value_to_write(self.values.as_slice(), frame, cell.number)?);
                Ok(all)
            }
        }
    }

    /// The next commute's callee has given this value, which is its ref's from now on. Nothing is done where a validator is next.
    pub fn give(&mut self, value: Value)
        ensures { self.new ≡ given self.old.work self.old.values value }
    {
        if let Some(Task::Redoes(commute)) = self.work.get(self.next) {
            let cell = commute.cell;
            put_value(&mut self.values, cell, value);
            self.next += 1; // this commute is done
        }
    }

    /// The next task is done: a validator accepts what its ref is to get.
    pub fn accept(&mut self)
        requires { 0 < length self.old.work }
        ensures { self.new ≡ record self.old { work = behind_next self.old.work } }
    {
        self.next += 1;
    }

    /// The refs that were commuted and not set with their values, which the phase goes on sharing.
    pub fn writes(&self) -> Result<Vec<(CellId, Value)>, AllocError>
        ensures { IfOk result (λ ws. ws.items ≡ self.now.values) }
    {
        copied(self.alloc, self.values.as_slice())
    }
}
