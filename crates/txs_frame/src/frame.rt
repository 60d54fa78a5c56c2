//! The frame of a transaction.

ghost use Rattle.std.specs.Prelude.{◌≡◌, ◌||◌, ◌++◌, ◌∷◌, [], option_copied, is_some, IfOk, OnOk, OnErr};
ghost use Rattle.txs_world_protocol.specs.Ask.{buffered};
ghost use Rattle.txs_frame.specs.Frame.{PlainTxFrame, empty_frame, is_set, is_commuted, set_ref, ensure_ref, commute_ref, hold_send, commuted, commutes_of, by_ref, phase_work, set_writes, written, with_cell, SetAnswers};
ghost use Rattle.txs_frame.specs.Kept.{Ascends, IsPlaceOf, cell_number, ref_cell, cells_by, writes_by, was_set, only_commuted};
ghost use Rattle.txs_value_data.specs.declared.value.CellKind.TheVariants.{Ref as a_ref};
ghost use Rattle.txs_frame.specs.declared.frame.SetError.TheVariants.{Memory as no_memory};

use crate::own::{How, Own, find, how_at, put, was_commuted, with_commute};
use std::alloc::{AllocError, Global};
use std::marker::Model;
use thiserror::Error;
use txs_value_cell::Action;
use txs_value_data::{Callee, CellId, CellKind, Listed, Value, copy_value, copy_values};

/// A commute that is kept: its ref, what it calls, and the arguments behind the ref's value.
#[derive(Drop)]
pub struct Commute {
    pub cell: CellId,
    pub callee: Callee,
    pub args: Listed<Value>,
}

/// Why a ref isn't set.
#[derive(Clone, Copy, Debug, Error)]
pub enum SetError {
    /// The transaction commuted the ref.
    #[error("set after commute")]
    SetAfterCommute,
    /// There was no memory.
    #[error("out of memory")]
    Memory,
}

impl From<AllocError> for SetError {
    ghost from_gives = { λ _ e. e ≡ no_memory };

    fn from(_e: AllocError) -> SetError {
        SetError::Memory
    }
}

/// What a transaction has done so far.
pub struct TxFrame {
    alloc: Global,
    own: Vec<Own>,
    ensured: Vec<CellId>,
    commutes: Vec<Commute>,
    sends: Vec<Action>,
}

// Dropped by a call that is proved here, so that no crate above proves it again.
impl Drop for TxFrame {
    fn drop(self) {
        let TxFrame {
            alloc: _,
            own,
            ensured,
            commutes,
            sends,
        } = self;
        drop(own);
        drop(ensured);
        drop(commutes);
        drop(sends);
    }
}

impl Model for TxFrame {
    ghost use Rattle.std.specs.Coded.{codes};
    ghost use Rattle.txs_value_data.specs.contracts.value.Value as value;
    ghost use Rattle.txs_frame.specs.Frame.{PlainTxFrame};

    ghost Value = { PlainTxFrame };

    ghost coded = { Prim.hlevel (codes, value.the_row.coded) };

    ghost use Rattle.txs_frame.specs.Kept.{work_of, IsKept};

    ghost view = { λ f. work_of f.own.items f.ensured.items f.commutes.items f.sends.items };

    ghost invariant = { λ f. IsKept f.own.items f.ensured.items f.commutes.items };
}

impl TxFrame {
    /// The frame of a transaction that has done nothing.
    pub fn new(alloc: Global) -> TxFrame
        ensures { result ≡ empty_frame }
    {
        TxFrame {
            alloc,
            own: Vec::new(alloc),
            ensured: Vec::new(alloc),
            commutes: Vec::new(alloc),
            sends: Vec::new(alloc),
        }
    }

    /// The transaction's own value of the ref with this number: it has one exactly where it set or
    /// commuted the ref.
    pub fn value(&self, number: u16) -> Option<&Value>
        ensures value { option_copied result ≡ buffered self.now.values number }
        ensures own { is_some result ≡ (is_set self.now number || is_commuted self.now number) }
    {
        match find(self.own.as_slice(), number) {
            Ok(i) => Some(&self.own[i].value),
            Err(_) => None,
        }
    }

    /// Sets a ref. It is refused where the transaction commuted the ref. After an error the frame is as
    /// before, and the value is gone.
    #[inline(always)]
    pub fn set(&mut self, cell: CellId, value: Value) -> Result<(), SetError>
        requires { cell.kind ≡ a_ref }
        ensures { SetAnswers (set_ref cell value self.old) self.old result self.new }
    {
        let place = find(self.own.as_slice(), cell.number);
        if was_commuted(how_at(self.own.as_slice(), place)) {
            return Err(SetError::SetAfterCommute);
        }
        let own = Own {
            number: cell.number,
            value,
            how: How::Set,
        };
        put(&mut self.own, place, own)?;
        Ok(())
    }

    /// Keeps a commute of a ref, with the value that the transaction has of it from now on. After an error
    /// the frame is as before, and the arguments and the value are gone.
    pub fn commute(
        &mut self,
        cell: CellId,
        callee: Callee,
        args: Listed<Value>,
        value: Value,
    ) -> Result<(), AllocError>
        requires { cell.kind ≡ a_ref }
        ensures kept { OnOk result (self.new ≡ commute_ref cell callee args value self.old) }
        ensures same { OnErr result (self.new ≡ self.old) }
    {
        let place = find(self.own.as_slice(), cell.number);
        self.commutes.reserve(1)?;
        let own = Own {
            number: cell.number,
            value,
            how: with_commute(how_at(self.own.as_slice(), place)),
        };
        put(&mut self.own, place, own)?;
        self.commutes.push_reserved(Commute { cell, callee, args });
        Ok(())
    }

    /// Ensures a ref, once. After an error the frame is as before.
    pub fn ensure(&mut self, cell: CellId) -> Result<(), AllocError>
        ensures kept { OnOk result (self.new ≡ ensure_ref cell self.old) }
        ensures same { OnErr result (self.new ≡ self.old) }
    {
        match find_ref(self.ensured.as_slice(), cell.number) {
            Ok(_) => Ok(()),
            Err(i) => {
                self.ensured.insert(i, cell)?;
                Ok(())
            }
        }
    }

    /// The refs that are ensured once this one is, too, in a list of their own.
    pub fn with_ensured(&self, cell: CellId) -> Result<Listed<CellId>, AllocError>
        ensures { IfOk result (λ cells. cells ≡ with_cell self.now.ensures cell) }
    {
        let refs = self.ensured.as_slice();
        let mut cells = Vec::from_slice(self.alloc, refs)?;
        match find_ref(refs, cell.number) {
            Ok(_) => {}
            Err(i) => cells.insert(i, cell)?,
        }
        Ok(Listed::from_vec(cells))
    }

    /// Ensures a ref, once, by the list of the refs that are ensured then: this wants no memory.
    pub fn ensure_by(&mut self, cell: CellId, cells: Listed<CellId>)
        requires { cells ≡ with_cell self.old.ensures cell }
        ensures { self.new ≡ ensure_ref cell self.old }
    {
        self.ensured = cells.into_vec();
    }

    /// Holds a send until the transaction commits. After an error the frame is as before, and the action is
    /// gone.
    pub fn hold_send(&mut self, action: Action) -> Result<(), AllocError>
        ensures kept { OnOk result (self.new ≡ hold_send action self.old) }
        ensures same { OnErr result (self.new ≡ self.old) }
    {
        self.sends.push(action)?;
        Ok(())
    }

    /// The frame is as a new one, and keeps its memory.
    pub fn reset(&mut self)
        ensures { self.new ≡ empty_frame }
    {
        self.own.clear();
        self.ensured.clear();
        self.commutes.clear();
        self.sends.clear();
    }

    /// The refs that were commuted and not set, by ascending number.
    #[inline(always)]
    pub fn commuted(&self) -> Result<Vec<CellId>, AllocError>
        ensures { IfOk result (λ cells. cells.items ≡ commuted self.now) }
    {
        let mut cells = Vec::new(self.alloc);
        for own in &self.own {
            match own.how {
                How::Commuted => cells.push(CellId {
                    kind: CellKind::Ref,
                    number: own.number,
                })?,
                How::Set | How::Both => {}
            }
        }
        Ok(cells)
    }

    /// The commutes of the refs that were commuted and not set, ref by ref by ascending number, in a list of their own.
    pub fn phase_work(&self) -> Result<Vec<Commute>, AllocError>
        ensures { IfOk result (λ work. work.items ≡ phase_work self.now) }
    {
        let cells = self.commuted()?;
        self.work_on(cells.as_slice())
    }

    /// The commutes of these refs, ref by ref, in a list of their own.
    pub(crate) fn work_on(&self, cells: &[CellId]) -> Result<Vec<Commute>, AllocError>
        ensures { IfOk result (λ work. work.items ≡ by_ref cells.now self.now.commutes) }
    {
        let mut work = Vec::new(self.alloc);
        for cell in cells {
            push_commutes_of(self.alloc, &mut work, cell.number, self.commutes.as_slice())?;
        }
        Ok(work)
    }

    /// The refs that were set with their values, which the frame goes on sharing, by ascending number.
    pub fn writes(&self) -> Result<Vec<(CellId, Value)>, AllocError>
        ensures { IfOk result (λ writes. writes.items ≡ set_writes self.now) }
    {
        let mut writes = Vec::with_capacity(self.alloc, self.own.len())?;
        for own in &self.own {
            match own.how {
                How::Set | How::Both => {
                    let cell = CellId {
                        kind: CellKind::Ref,
                        number: own.number,
                    };
                    writes.push_reserved((cell, copy_value(&own.value)?));
                }
                How::Commuted => {}
            }
        }
        Ok(writes)
    }

    /// The refs that the transaction writes, those that it set and those that it commuted, by ascending number.
    pub fn written(&self) -> Result<Vec<CellId>, AllocError>
        ensures { IfOk result (λ refs. refs.items ≡ written self.now) }
    {
        let mut refs = Vec::with_capacity(self.alloc, self.own.len())?;
        for own in &self.own {
            refs.push_reserved(ref_cell(own.number));
        }
        Ok(refs)
    }

    /// The refs that were set, by ascending number.
    pub fn sets(&self) -> Result<Vec<CellId>, AllocError>
        ensures { IfOk result (λ refs. refs.items ≡ self.now.sets) }
    {
        let mut refs = Vec::new(self.alloc);
        for own in &self.own {
            match own.how {
                How::Set | How::Both => refs.push(ref_cell(own.number))?,
                How::Commuted => (),
            }
        }
        Ok(refs)
    }

    /// The refs that were ensured, by ascending number.
    pub fn ensured(&self) -> &[CellId]
        ensures { result.now ≡ self.now.ensures }
    {
        self.ensured.as_slice()
    }

    /// The commutes, in the order in which they were done.
    pub fn commutes(&self) -> &[Commute]
        ensures { result.now ≡ self.now.commutes }
    {
        self.commutes.as_slice()
    }

    /// The sends that are held, in the order in which they were done.
    pub fn sends(&self) -> &[Action]
        ensures { result.now ≡ self.now.sends }
    {
        self.sends.as_slice()
    }
}

/// The ref with this number.
fn ref_cell(number: u16) -> CellId
    ensures { result ≡ ref_cell number }
{
    CellId {
        kind: CellKind::Ref,
        number,
    }
}

/// The place of the ref with this number, or where it would be.
fn find_ref(refs: &[CellId], number: u16) -> Result<usize, usize>
    requires { Ascends cell_number 0 refs.now }
    ensures { IsPlaceOf cell_number refs.now number result }
{
    refs.binary_search_by_key(&number, |c| c.number)
}

/// Adds the commutes of the ref with this number once more, in order.
fn push_commutes_of(
    alloc: Global,
    work: &mut Vec<Commute>,
    number: u16,
    commutes: &[Commute],
) -> Result<(), AllocError>
    ensures { OnOk result (work.new.items ≡ work.old.items ++ commutes_of number commutes.now) }
{
    for commute in commutes {
        if commute.cell.number == number {
            work.reserve(1)?;
            work.push_reserved(Commute {
                cell: commute.cell,
                callee: commute.callee,
                args: copy_values(alloc, &commute.args)?,
            });
        }
    }
    Ok(())
}
