//! Turns of an actor, one and many.

ghost use Rattle.std.specs.Prelude.{◌≡◌, IsTrue, false, ◌<◌, None};
ghost use Rattle.txs_machine_actor.specs.PlainActor.{Runs, Lives, unanswered};
ghost use Rattle.txs_machine_actor.specs.Paces.{LeavesLoop, MayStep};
ghost use Rattle.txs_code_meaning.specs.declared.instr.Instr.TheVariants.{TxEnd};
ghost use Rattle.txs_machine_actor.specs.Turns.{Says, Turns, TurnsOf, Strides, next_function, CanEnd, EndsAs, CanLeave, Leaves, IsAtHand, IsHandingOver, IsActing};
ghost use Rattle.txs_machine_actor.specs.declared.outcome.Turn.TheVariants as turned;

use crate::attend::attend;
use crate::judge::{end_valid, write_valid};
use txs_code_meaning::{Instr, Verified};
use txs_machine_actor::actor::{tell, went};
use txs_machine_actor::{Actor, Turn};
use txs_machine_stack::Next;
use txs_machine_transaction::{Role, Transaction};
use txs_value_data::Span;
use txs_world_protocol::Outcome;

/// The end of a transaction, or of one that is joined. It is apart from the other instructions that leave the loop, so that
/// a stride holds nothing for it.
#[inline(never)]
fn leave_at_end(actor: &mut Actor, code: &Verified, span: Span, next: usize, turn: &mut Turn)
    requires can { CanLeave code.now actor.old TxEnd }
    requires went { turn.old ≡ turned.Went }
    ensures { Leaves code.now actor.old TxEnd span next turn.new actor.new }
{
    if code.has_validator() {
        end_valid(actor, code, span, next, turn);
        return;
    }
    end_as(actor, code, span, next, turn);
}

/// The same, where no validator is the next task: a function of the next task runs first.
#[inline(always)]
pub(crate) fn end_as(actor: &mut Actor, code: &Verified, span: Span, next: usize, turn: &mut Turn)
    requires can { CanEnd code.now actor.old (next_function actor.old.tx) }
    requires went { turn.old ≡ turned.Went }
    ensures { EndsAs code.now actor.old (next_function actor.old.tx) span next turn.new actor.new }
{
    match actor.next_function() {
        Some(f) => actor.evaluate(code, f, turn),
        None => actor.on_transaction(code.code().cells(), Instr::TxEnd, span, next, turn),
    }
}

/// An instruction that leaves the body's loop: a call, a return, or one on cells or the transaction.
fn leave(actor: &mut Actor, code: &Verified, instr: Instr, span: Span, next: usize, turn: &mut Turn)
    requires can { CanLeave code.now actor.old instr }
    requires went { turn.old ≡ turned.Went }
    ensures { Leaves code.now actor.old instr span next turn.new actor.new }
{
    match instr {
        Instr::Call(f) => {
            if !actor.enter(code, f, next) {
                actor.end(Outcome::Memory, turn);
            }
        }
        Instr::Return => {
            if actor.stack().is_first() {
                actor.hand_in();
            } else {
                actor.give_back();
            }
        }
        Instr::TxEnd => leave_at_end(actor, code, span, next, turn),
        other => write_valid(actor, code, other, span, next, turn),
    }
}

/// Whether the function of an action runs, and no function of a commute or of a validator above it.
fn is_acting(actor: &Actor) -> bool
    ensures yes { IsTrue result → IsActing actor.now.role actor.now.tx }
    ensures no { result ≡ false → IsActing actor.now.role actor.now.tx → ⊥ }
{
    let Role::Acting { .. } = actor.role() else {
        return false;
    };
    !matches!(
        actor.tx(),
        Some(
            Transaction::Evaluating { .. }
                | Transaction::Judging { .. }
                | Transaction::Weighing { .. }
        )
    )
}

/// Whether a return of an action's function to its agent is next.
pub(crate) fn hands_over(actor: &Actor, code: &Verified) -> bool
    requires runs { Runs code.now actor.now }
    requires answered { unanswered actor.now ≡ None }
    requires unended { actor.now.outcome ≡ None }
    ensures yes { IsTrue result → IsHandingOver code.now actor.now }
    ensures no { result ≡ false → IsHandingOver code.now actor.now → ⊥ }
{
    if !is_acting(actor) {
        return false;
    }
    if !actor.stack().is_first() {
        return false;
    }
    let (instr, _, _) = at_hand(actor, code);
    matches!(instr, Instr::Return)
}

/// The instruction at hand, its span, and the place after it.
#[inline(always)]
pub(crate) fn at_hand(actor: &Actor, code: &Verified) -> (Instr, Span, usize)
    requires runs { Runs code.now actor.now }
    requires answered { unanswered actor.now ≡ None }
    requires unended { actor.now.outcome ≡ None }
    ensures { IsAtHand code.now actor.now result.0 result.1 result.2 }
{
    let body = actor.body(code);
    let at = actor.stack().place();
    let spans = body.spans();
    let instrs = body.instrs();
    (instrs[at], spans[at], at + 1)
}

/// The turn of a return of an action's function to its agent.
#[cold]
#[inline(never)]
fn come_home(actor: &mut Actor, code: &Verified)
    requires runs { Runs code.now actor.old }
    requires answered { unanswered actor.old ≡ None }
    requires may { MayStep actor.old }
    requires hands_over { IsHandingOver code.now actor.old }
    ensures turns { Turns code.now actor.old turned.Went actor.new }
    ensures lives { Lives code.now actor.new }
{
    // A step of the proof, which does nothing when it runs.
    let _spans = actor.body(code).spans();
    actor.count();
    actor.hand_in();
}

/// The turn of such an instruction, which is next, and is no return to an agent: whether it was a call or a return,
/// behind which the loop of the stack alone continues.
fn depart(actor: &mut Actor, code: &Verified, turn: &mut Turn) -> bool
    requires runs { Runs code.now actor.old }
    requires answered { unanswered actor.old ≡ None }
    requires may { MayStep actor.old }
    requires leaves { LeavesLoop code.now actor.old }
    requires stays { IsHandingOver code.now actor.old → ⊥ }
    requires went { turn.old ≡ turned.Went }
    ensures turns { Turns code.now actor.old turn.new actor.new }
    ensures runs { Runs code.now actor.new }
{
    let (instr, span, next) = at_hand(actor, code);
    let hopped = matches!(instr, Instr::Call(_) | Instr::Return);
    actor.count();
    leave(actor, code, instr, span, next, turn);
    hopped
}

/// Some turns, up to so many, of a body or of an agent in its own: how many. What the last of them came to goes to its place. It isn't inlined
/// into the loop of `run`, which would compute what it needs in each case before its first turn.
#[inline(never)]
fn stride(actor: &mut Actor, code: &Verified, budget: u64, turn: &mut Turn) -> u64
    requires lives { Lives code.now actor.old }
    requires answered { unanswered actor.old ≡ None }
    requires some { 0 < budget }
    requires went { turn.old ≡ turned.Went }
    ensures strides { Strides code.now actor.old budget result turn.new actor.new }
    ensures lives { Lives code.now actor.new }
{
    if actor.is_attending() {
        attend(actor, code, turn);
        return 1;
    }
    if let Some(outcome) = actor.over() {
        tell(turn, Turn::Ended(outcome));
        return 1;
    }
    let count = actor.share(budget);
    let pause = actor.advance(code, count);
    match pause.next {
        Next::At(_) => pause.done,
        Next::Ended(outcome) => {
            actor.count();
            actor.finish(outcome, turn);
            pause.done + 1
        }
        Next::Leaves => {
            if hands_over(actor, code) {
                come_home(actor, code);
                return pause.done + 1;
            }
            let hopped = depart(actor, code, turn);
            let done = pause.done + 1;
            if !hopped {
                return done;
            }
            if went(turn) {
                return done + actor.quicken(code, count - done);
            }
            done
        }
    }
}

/// One step: the next instruction. An actor that has ended stays as it is, and one that has made as many steps as it
/// may ends here, which is no step. Where there is no memory for an instruction, the actor ends and keeps what it has
/// printed. The condition is that no ask is unanswered.
pub fn turn(actor: &mut Actor, code: &Verified) -> Turn
    requires lives { Lives code.now actor.old }
    requires answered { unanswered actor.old ≡ None }
    ensures turns { Turns code.now actor.old result actor.new }
    ensures says { Says result actor.new }
    ensures lives { Lives code.now actor.new }
{
    let mut turn = Turn::Went;
    stride(actor, code, 1, &mut turn);
    turn
}

/// Up to so many turns. What the last of them came to goes to its place: an ask or an end is the last.
pub fn run(actor: &mut Actor, code: &Verified, budget: u64, turn: &mut Turn)
    requires lives { Lives code.now actor.old }
    requires answered { unanswered actor.old ≡ None }
    requires went { turn.old ≡ turned.Went }
    ensures turns { TurnsOf code.now budget actor.old turn.new actor.new }
    ensures says { Says turn.new actor.new }
    ensures lives { Lives code.now actor.new }
{
    let mut left = budget;
    for _ in 0..budget {
        if left == 0 {
            return;
        }
        let done = stride(actor, code, left, turn);
        if !went(turn) {
            return;
        }
        left -= done;
    }
}
