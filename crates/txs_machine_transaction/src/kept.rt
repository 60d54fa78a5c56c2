//! What an actor keeps of its transaction and of its unanswered ask. What each transaction and the open of each swap go through is
//! small, or is overwritten in its place: no stack is made anew. All else is kept whole.

ghost use Rattle.std.specs.Prelude.{◌≡◌, ◌<◌, ◌^◌, None, Some, IfSome, IsTrue, OnOk, false, option_copied};
ghost use Rattle.txs_machine_transaction.specs.Kept.{HasBegun, HasOpened, IsBegun, IsEnding, IsTold, IsWanted, RunsOn};
ghost use Rattle.txs_machine_transaction.specs.Transaction.{IsUnapplied, depth_in};
ghost use Rattle.txs_machine_transaction.specs.declared.state.Pending.TheVariants as pending;
ghost use Rattle.txs_machine_transaction.specs.declared.state.Transaction.TheVariants as tx;

use crate::state::{Pending, Savepoint, Transaction};
use std::alloc::{AllocError, Global};
use std::marker::Model;
use std::mem;
use txs_machine_stack::Stack;
use txs_value_data::limits::RERUNS;
use txs_value_data::{CellId, Span, Value};

/// How often a transaction that runs may run again, and how many inner ones it has.
#[derive(Clone, Copy)]
pub struct Standing {
    pub left: u16,
    pub inner: u64,
}

/// What the end of a transaction makes of one that runs.
#[derive(Clone, Copy)]
pub enum Ending {
    /// It is left by an inner one.
    Inner,
    /// It ends.
    Commits,
    /// None runs, or it is at its end already.
    Other,
}

/// The transaction of an actor. Where one runs that isn't at its end, where it began is in a place of its own.
#[derive(Drop)]
pub struct KeptTransaction {
    alloc: Global,
    running: Option<Standing>,
    from: Savepoint,
    other: Transaction,
}

impl Model for KeptTransaction {
    ghost use Rattle.std.specs.Coded.{codes};
    ghost use Rattle.txs_value_data.specs.contracts.value.Value as value;
    ghost use Rattle.txs_machine_transaction.specs.declared.state.Transaction.{Transaction};

    ghost Value = { Transaction };

    ghost coded = { Prim.hlevel (codes, value.the_row.coded) };

    ghost use Rattle.txs_machine_transaction.specs.Kept.{transaction_of};

    ghost view = { λ k. transaction_of k.running k.from k.other };
}

/// What an unanswered ask is for, where that is small.
#[derive(Clone, Copy)]
pub enum Wanted {
    /// Nothing, or what is kept whole.
    Other,
    /// A transaction begins, which may run again so many times.
    Begin(u16),
    /// A cell's value takes the cell's place at the top of the stack.
    Read(CellId),
    /// A ref's value goes between the ref and so many arguments, and no commute is open then.
    Open(CellId, u16),
    /// A transaction ends.
    Commit,
    /// An atom's value goes between the atom and so many arguments, and a swap is applied then.
    Swap(CellId, u16),
    /// A swap ends: its atom, which was opened at this place, gets a value.
    Close(CellId, u32),
}

/// What an actor's unanswered ask is for, if there is one. Where a transaction or a swap would begin is in a place of its own, and so is what the atom of
/// a swap that ends gets.
#[derive(Drop)]
pub struct KeptPending {
    alloc: Global,
    wanted: Wanted,
    from: Savepoint,
    value: Value,
    other: Option<Pending>,
}

impl Model for KeptPending {
    ghost use Rattle.std.specs.Prelude.{Option};
    ghost use Rattle.std.specs.Coded.{codes};
    ghost use Rattle.txs_value_data.specs.contracts.value.Value as value_is;
    ghost use Rattle.txs_machine_transaction.specs.declared.state.Pending.{Pending};

    ghost Value = { Option Pending };

    ghost coded = { Prim.hlevel (codes, value_is.the_row.coded) };

    ghost use Rattle.txs_machine_transaction.specs.Kept.{pending_of};

    ghost view = { λ k. pending_of k.wanted k.from k.value k.other };
}

/// Where nothing began.
fn no_origin(alloc: Global) -> Savepoint {
    Savepoint {
        span: Span { from: 0, to: 0 },
        stack: Stack::empty(alloc),
    }
}

/// No transaction is kept whole.
#[cold]
#[inline(never)]
fn forget(other: &mut Transaction)
    ensures { other.new ≡ tx.Outside }
{
    drop(mem::replace(other, Transaction::Outside));
}

/// Nothing is kept whole that is asked for.
#[cold]
#[inline(never)]
fn forget_pending(other: &mut Option<Pending>)
    ensures { other.new ≡ None }
{
    drop(mem::replace(other, None));
}

impl KeptTransaction {
    /// This transaction.
    pub fn new(alloc: Global, tx: Transaction) -> KeptTransaction
        ensures { result ≡ tx }
    {
        KeptTransaction {
            alloc,
            running: None,
            from: no_origin(alloc),
            other: tx,
        }
    }

    /// Where what it asks for is allocated.
    #[inline(always)]
    pub(crate) fn alloc(&self) -> Global {
        self.alloc
    }

    /// The transaction, where it is kept whole: else one runs that isn't at its end.
    #[inline(always)]
    pub fn whole(&self) -> Option<&Transaction>
        ensures whole { IfSome result (λ t. t.now ≡ self.now) }
        ensures running { result ≡ None → RunsOn self.now }
    {
        match self.running {
            Some(_) => None,
            None => Some(&self.other),
        }
    }

    /// The transaction is taken out.
    pub fn take(&mut self) -> Transaction
        ensures taken { result ≡ self.old }
        ensures left { self.new ≡ tx.Outside }
    {
        let Some(standing) = self.running else {
            return mem::replace(&mut self.other, Transaction::Outside);
        };
        let from = mem::replace(&mut self.from, no_origin(self.alloc));
        self.running = None;
        forget(&mut self.other);
        Transaction::Running {
            left: standing.left,
            inner: standing.inner,
            from,
        }
    }

    /// It is this one.
    pub fn put(&mut self, tx: Transaction)
        ensures { self.new ≡ tx }
    {
        match tx {
            Transaction::Running { left, inner, from } => {
                drop(mem::replace(&mut self.from, from));
                self.running = Some(Standing { left, inner });
            }
            other => {
                self.running = None;
                drop(mem::replace(&mut self.other, other));
            }
        }
    }

    /// There is none.
    #[inline(always)]
    pub fn leave(&mut self)
        ensures { self.new ≡ tx.Outside }
    {
        self.running = None;
        match &self.other {
            Transaction::Outside => {}
            _ => forget(&mut self.other),
        }
    }

    /// A swap is applied, whose atom was opened at this index of its book. Lists for where another begins are handed back.
    pub fn swap(&mut self, cell: CellId, at: u32, from: &mut Savepoint)
        ensures { self.new ≡ tx.Swapping cell at from.old }
    {
        let spare = mem::replace(&mut self.from, no_origin(self.alloc));
        let began = mem::replace(from, spare);
        self.running = None;
        let swapping = Transaction::Swapping {
            cell,
            at,
            from: began,
        };
        drop(mem::replace(&mut self.other, swapping));
    }

    /// There is none. The lists of a swap that was applied are kept for another.
    pub fn leave_swap(&mut self)
        ensures { self.new ≡ tx.Outside }
    {
        self.running = None;
        match mem::replace(&mut self.other, Transaction::Outside) {
            Transaction::Swapping { from, .. } => drop(mem::replace(&mut self.from, from)),
            other => drop(other),
        }
    }

    /// It runs from here, with no inner ones.
    #[inline(always)]
    pub fn run(&mut self, left: u16, from: &mut Savepoint)
        ensures { self.new ≡ tx.Running left 0 from.old }
    {
        mem::swap(&mut self.from, from);
        self.running = Some(Standing { left, inner: 0 });
    }

    /// A transaction begins, or joins the one that runs: how often it may run again, if it begins.
    #[inline(always)]
    #[tactic(auto, unfolding(txs_value_data::specs::Limits::reruns))]
    pub fn begin(&mut self) -> Option<u16>
        requires counted { depth_in self.old < 2 ^ 64 }
        requires unapplied { IsUnapplied self.old }
        ensures { IsBegun result self.old self.new }
    {
        if let Some(standing) = self.running {
            self.running = Some(Standing {
                left: standing.left,
                inner: standing.inner + 1,
            });
            return None;
        }
        match &mut self.other {
            Transaction::Running { inner, .. } => {
                *inner += 1;
                None
            }
            Transaction::Outside => Some(RERUNS),
            Transaction::Restarting { left } => Some(*left),
            Transaction::Applying { .. }
            | Transaction::Evaluating { .. }
            | Transaction::Swapping { .. }
            | Transaction::Judging { .. }
            | Transaction::Weighing { .. } => unreachable!(),
        }
    }

    /// A transaction that runs is left by an inner one, or ends. Nothing is done else.
    #[inline(always)]
    pub fn end(&mut self) -> Ending
        ensures { IsEnding result self.old self.new }
    {
        let Some(standing) = self.running else {
            return Ending::Other;
        };
        if standing.inner == 0 {
            return Ending::Commits;
        }
        self.running = Some(Standing {
            left: standing.left,
            inner: standing.inner - 1,
        });
        Ending::Inner
    }
}

impl KeptPending {
    /// Nothing is asked for.
    pub fn new(alloc: Global) -> KeptPending
        ensures { result ≡ None }
    {
        KeptPending {
            alloc,
            wanted: Wanted::Other,
            from: no_origin(alloc),
            value: Value::Nil,
            other: None,
        }
    }

    /// What is asked for, where that is small.
    #[inline(always)]
    pub fn wanted(&self) -> Wanted
        ensures { IsWanted result self.now }
    {
        self.wanted
    }

    /// The same, and what is kept whole.
    pub fn parts(&self) -> (Wanted, Option<&Pending>)
        ensures { IsTold result.0 (option_copied result.1) self.now }
    {
        (self.wanted, self.other.as_ref())
    }

    /// It is taken out.
    pub fn take(&mut self) -> Option<Pending>
        ensures taken { result ≡ self.old }
        ensures left { self.new ≡ None }
    {
        let small = match self.wanted {
            Wanted::Other => return mem::replace(&mut self.other, None),
            Wanted::Begin(left) => Pending::Begin {
                left,
                from: mem::replace(&mut self.from, no_origin(self.alloc)),
            },
            Wanted::Read(cell) => Pending::Read(cell),
            Wanted::Open(cell, n) => Pending::Open(cell, n, None),
            Wanted::Commit => Pending::Commit,
            Wanted::Swap(cell, n) => {
                Pending::Swap(cell, n, mem::replace(&mut self.from, no_origin(self.alloc)))
            }
            Wanted::Close(cell, at) => {
                Pending::Close(cell, at, mem::replace(&mut self.value, Value::Nil))
            }
        };
        self.clear();
        Some(small)
    }

    /// This is asked for.
    pub fn put(&mut self, pending: Pending)
        ensures { self.new ≡ Some pending }
    {
        self.wanted = Wanted::Other;
        drop(mem::replace(&mut self.other, Some(pending)));
    }

    /// Nothing is asked for any more.
    #[inline(always)]
    pub fn clear(&mut self)
        ensures { self.new ≡ None }
    {
        self.wanted = Wanted::Other;
        match &self.other {
            None => {}
            Some(_) => forget_pending(&mut self.other),
        }
    }

    /// A cell's value is asked for.
    #[inline(always)]
    pub fn read(&mut self, cell: CellId)
        ensures { self.new ≡ Some (pending.Read cell) }
    {
        self.wanted = Wanted::Read(cell);
    }

    /// A ref's value is asked for, which goes below so many arguments.
    #[inline(always)]
    pub fn open(&mut self, cell: CellId, n: u16)
        ensures { self.new ≡ Some (pending.Open cell n None) }
    {
        self.wanted = Wanted::Open(cell, n);
    }

    /// A swap's atom, which was opened at this place, is to get this value.
    pub fn close(&mut self, cell: CellId, at: u32, value: Value)
        ensures { self.new ≡ Some (pending.Close cell at value) }
    {
        drop(mem::replace(&mut self.value, value));
        self.wanted = Wanted::Close(cell, at);
    }

    /// The commit of the transaction is asked for.
    #[inline(always)]
    pub fn commit(&mut self)
        ensures { self.new ≡ Some pending.Commit }
    {
        self.wanted = Wanted::Commit;
    }

    /// The beginning of a transaction is asked for, which may run again so many times from here, with a copy of the stack.
    #[inline(always)]
    pub fn begin(&mut self, left: u16, span: Span, stack: &Stack) -> Result<(), AllocError>
        ensures { OnOk result (self.new ≡ Some (pending.Begin left (record { span = span; stack = stack.now }))) }
    {
        self.from.span = span;
        self.from.stack.become_copy(stack)?;
        self.wanted = Wanted::Begin(left);
        Ok(())
    }

    /// The value of a swap's atom is asked for, which goes below so many arguments. The swap begins here, with a copy of the stack.
    pub fn swap(
        &mut self,
        cell: CellId,
        n: u16,
        span: Span,
        stack: &Stack,
    ) -> Result<(), AllocError>
        ensures { OnOk result (self.new ≡ Some (pending.Swap cell n (record { span = span; stack = stack.now }))) }
    {
        self.from.span = span;
        self.from.stack.become_copy(stack)?;
        self.wanted = Wanted::Swap(cell, n);
        Ok(())
    }

    /// The swap that is asked for is applied from now on, opened at this index, and nothing is asked for: how many arguments
    /// the value goes below. Nothing is done else.
    pub fn open_swap(&mut self, at: u32, tx: &mut KeptTransaction) -> Option<u16>
        ensures opened { IfSome result (λ n. HasOpened self.old at n tx.new × (self.new ≡ None)) }
        ensures kept { result ≡ None → (self.new ≡ self.old) × (tx.new ≡ tx.old) }
    {
        let Wanted::Swap(cell, n) = self.wanted else {
            return None;
        };
        tx.swap(cell, at, &mut self.from);
        self.clear();
        Some(n)
    }

    /// What begins is the transaction from now on, and nothing is asked for: whether that was so. Nothing is done else.
    #[inline(always)]
    pub fn run(&mut self, tx: &mut KeptTransaction) -> bool
        ensures begun { IsTrue result → HasBegun self.old tx.new × (self.new ≡ None) }
        ensures kept { result ≡ false → (self.new ≡ self.old) × (tx.new ≡ tx.old) }
    {
        let Wanted::Begin(left) = self.wanted else {
            return false;
        };
        tx.run(left, &mut self.from);
        self.clear();
        true
    }
}
