//! The meaning of nodes, by plain recursion: outside every transaction on a thread's events, and in one on one world.

ghost use Rattle.std.specs.Prelude.{true, false, ◌≡◌, ◌≤◌, ◌-◌, ◌+◌, ◌++◌, ◌∷◌, [], suc, Bool, length, take, drop, None, Some, IsTrue, IfOk, OnOk, MatchResult};
ghost use Rattle.txs_frame.specs.Frame.{commuted, phase_work, set_writes};
ghost use Rattle.txs_tree_eval_node.specs.Events.{seen_event};
ghost use Rattle.txs_tree_eval_node.specs.Evaluated.{AnswersAt, EndComes, EndsNone, Misses, Reruns, transacting, Steps, Yields, GivesAll, FirstAccepted, FirstStops, PutAccepted, PutStops, Ready, ReadyIn, Finishes, Runs, SoundCommutes, means, all_mean, do_means, if_means, let_means, locals_mean, loop_means, turns_mean, call_means, applies_means, finish_means, strict_means, form_means, inside_means, outside_means, update_means, swap_means, applied, accept_means, accepted_means, made_means, dosync_means, eat_means, body_means, seen_means, final_means, redone_means, step_of, thread_state};
ghost use Rattle.txs_tree_eval_transaction.specs.Worked.{Told, ToldOf, Gives, RefCell, UpdatesRef, tx_state};
ghost use Rattle.txs_tree_eval_node.specs.declared.evaluate.Step.TheVariants.{Value as AValue};
ghost use Rattle.txs_tree_eval_transaction.specs.declared.stop.ThreadStop.TheVariants.{Memory};
ghost use Rattle.txs_tree_eval_node.specs.Setting.{callable, zone_in};
ghost use Rattle.txs_tree_meaning.specs.Sound.{InSomeTail, SoundCall, SentCallee, SoundCallee, SoundCells, SoundTree, SoundAll, SoundDo, SoundLet, in_thread, in_dosync};
ghost use Rattle.txs_tree_meaning.specs.Thread.{ThreadState};
ghost use Rattle.txs_tree_meaning.specs.Transaction.{judged, valued as first_values, merged};
ghost use Rattle.txs_tree_meaning.specs.Tree.{count};
ghost use Rattle.txs_tree_meaning.specs.View.{tree_of, trees_of, mark_of};
ghost use Rattle.txs_tree_eval_transaction.specs.Views.{is_whole, plain_tx_view, plain_view, world_of};
ghost use Rattle.txs_value_data.specs.Limits.{reruns};
ghost use Rattle.txs_value_data.specs.declared.value.Value.{Value as AnyValue};

use crate::closing::{close, end_stop, end_view};
use crate::context::Context;
use crate::seen::Seen;
use crate::shape::{Act, Shape, Strict, shape_of};
use crate::state::{Progress, State, Transacted};
use crate::thread::{
    Rerun, TRIES, end_swap, has_missed, has_touched, is_retry, read_at, rerun_as, reset_at, swap_at,
};
use std::alloc::{AllocError, Global};
use txs_frame::{Commute, TxFrame, validator_of};
use txs_tree_eval_transaction::{
    RefView, ThreadStop, TxView, TxWork, collect, merge, operate, print_line, put_write, take_cell,
    value_in, valued,
};
use txs_tree_meaning::Node;
use txs_value_apply::is_false;
use txs_value_cell::UpdateForm;
use txs_value_data::{Callee, CellId, Fault, FaultKind, Listed, Span, Value, copy_value};

/// What a node in tail position gives.
#[derive(Drop)]
pub(crate) enum Step {
    Value(Value),
    /// The values of the loop's next turn.
    Recur(Vec<Value>),
}

/// A dosync: its body, where it is, and whether its result is wanted.
#[derive(Clone, Copy)]
pub(crate) struct Dosync<'a> {
    body: &'a Node,
    span: Span,
    wanted: bool,
}

/// The same value, as what a node gives.
fn copy_step(value: &Value) -> Result<Step, ThreadStop>
    ensures { MatchResult result (λ s. s ≡ AValue value.now) (λ y. y ≡ Memory) }
{
    Ok(Step::Value(copy_value(value)?))
}

/// What a node gives that recurs to nothing.
fn as_step(given: Result<Value, ThreadStop>) -> Result<Step, ThreadStop>
    ensures { result ≡ step_of given }
{
    match given {
        Ok(value) => Ok(Step::Value(value)),
        Err(stop) => Err(stop),
    }
}

/// Puts the values in the place of the locals from there on.
fn rebind(locals: &mut Vec<Value>, from: usize, mut values: Vec<Value>) -> Result<(), AllocError>
    ensures { OnOk result (locals.new.items ≡ take from locals.old.items ++ values.items) }
{
    locals.truncate(from);
    locals.append(&mut values)
}

/// Appends the same values.
fn push_copies(values: &mut Vec<Value>, others: &[Value]) -> Result<(), AllocError>
    ensures { OnOk result (values.new.items ≡ values.old.items ++ others.now) }
{
    for other in others {
        values.push(copy_value(other)?)?;
    }
    Ok(())
}

/// The same values behind a first one.
fn with_first(alloc: Global, first: Value, others: &[Value]) -> Result<Vec<Value>, AllocError>
    ensures { IfOk result (λ vs. vs.items ≡ first ∷ others.now) }
{
    let mut values = Vec::new(alloc);
    values.push(first)?;
    push_copies(&mut values, others)?;
    Ok(values)
}

/// The same values in a list of its own.
pub fn copy_locals(alloc: Global, values: &[Value]) -> Result<Vec<Value>, AllocError>
    ensures { IfOk result (λ copies. copies.items ≡ values.now) }
{
    let mut copies = Vec::new(alloc);
    push_copies(&mut copies, values)?;
    Ok(copies)
}

/// The values that the commuted refs have in the world.
fn first_writes(
    alloc: Global,
    done: &TxFrame,
    world: &RefView<'_>,
) -> Result<Vec<(CellId, Value)>, AllocError>
    ensures { IfOk result (λ ws. ws.items ≡ first_values (commuted done.now) (world_of (plain_view world.now))) }
{
    let commuted = done.commuted()?;
    valued(alloc, commuted.as_slice(), world)
}

/// The values that were set, and these behind them.
fn with_sets(done: &TxFrame, writes: &[(CellId, Value)]) -> Result<Vec<(CellId, Value)>, ThreadStop>
    ensures { MatchResult result (λ last. last.items ≡ merged (set_writes done.now) writes.now) (λ y. y ≡ Memory) }
{
    let mut last = done.writes()?;
    merge(&mut last, writes)?;
    Ok(last)
}

/// What a validator's answer makes of the value that it looked at: nil and false refuse it.
fn judge(answer: Value, span: Span) -> Result<(), ThreadStop>
    ensures { (v : AnyValue) → ToldOf (λ _. v) result (judged answer span v tt) }
{
    let refused = is_false(&answer);
    drop(answer);
    if refused {
        return Err(ThreadStop::Fault(Fault {
            kind: FaultKind::InvalidState,
            span,
        }));
    }
    Ok(())
}

/// The node's value with these locals.
#[cycle(evaluate)]
pub fn evaluate<'a>(
    alloc: Global,
    context: &Context<'a>,
    node: &'a Node,
    locals: &mut Vec<Value>,
    state: &mut State<'a>,
) -> Result<Value, ThreadStop>
    requires { SoundTree (callable context.now) (zone_in context.now) (length locals.old.items) None (tree_of node.now) }
    ensures value { Yields context.now result state.new
        (means context.now (tree_of node.now) locals.old.items state.old) }
    ensures kept { OnOk result (locals.new.items ≡ locals.old.items) }
{
    context.is_sound();
    match evaluate_tail(alloc, context, node, locals, state)? {
        Step::Value(value) => Ok(value),
        Step::Recur(_) => unreachable!(),
    }
}

/// The same of a node that may be in tail position of a loop.
#[cycle(evaluate)]
fn evaluate_tail<'a>(
    alloc: Global,
    context: &Context<'a>,
    node: &'a Node,
    locals: &mut Vec<Value>,
    state: &mut State<'a>,
) -> Result<Step, ThreadStop>
    requires { InSomeTail (λ tail. SoundTree (callable context.now) (zone_in context.now) (length locals.old.items) tail (tree_of node.now)) }
    ensures value { Steps context.now result state.new
        (means context.now (tree_of node.now) locals.old.items state.old) }
    ensures kept { OnOk result (locals.new.items ≡ locals.old.items) }
{
    let (span, wanted) = (node.span, node.wanted);
    match shape_of(node) {
        Shape::Const(value) => copy_step(value),
        Shape::Local(place) => copy_step(&locals[usize::from(place)]),
        Shape::If(test, yes, no) => evaluate_if(alloc, context, test, yes, no, locals, state),
        Shape::Do(items) => evaluate_do(alloc, context, items, locals, state),
        Shape::Let(values, body) => evaluate_let(alloc, context, values, body, locals, state),
        Shape::Loop(values, body) => evaluate_loop(alloc, context, values, body, locals, state),
        Shape::Strict(strict, args) => {
            evaluate_strict(alloc, context, strict, args, span, locals, state)
        }
        Shape::Dosync(body) => {
            let dosync = Dosync { body, span, wanted };
            evaluate_dosync(alloc, context, dosync, locals, state)
        }
        Shape::Form(act, cell, args) => {
            evaluate_form(alloc, context, act, cell, args, span, wanted, locals, state)
        }
    }
}

/// The test, and then one branch alone.
#[cycle(evaluate)]
fn evaluate_if<'a>(
    alloc: Global,
    context: &Context<'a>,
    test: &'a Node,
    yes: &'a Node,
    no: &'a Node,
    locals: &mut Vec<Value>,
    state: &mut State<'a>,
) -> Result<Step, ThreadStop>
    requires test { SoundTree (callable context.now) (zone_in context.now) (length locals.old.items) None (tree_of test.now) }
    requires branches { InSomeTail (λ tail. SoundTree (callable context.now) (zone_in context.now) (length locals.old.items) tail (tree_of yes.now)
        × SoundTree (callable context.now) (zone_in context.now) (length locals.old.items) tail (tree_of no.now)) }
    ensures value { Steps context.now result state.new
        (if_means context.now (tree_of test.now) (tree_of yes.now) (tree_of no.now) locals.old.items state.old) }
    ensures kept { OnOk result (locals.new.items ≡ locals.old.items) }
{
    let value = evaluate(alloc, context, test, locals, state)?;
    let other = is_false(&value);
    drop(value);
    if other {
        return evaluate_tail(alloc, context, no, locals, state);
    }
    evaluate_tail(alloc, context, yes, locals, state)
}

/// The parts from left to right, and then what is done with their values.
#[cycle(evaluate)]
fn evaluate_strict<'a>(
    alloc: Global,
    context: &Context<'a>,
    strict: Strict,
    args: &'a [Node],
    span: Span,
    locals: &mut Vec<Value>,
    state: &mut State<'a>,
) -> Result<Step, ThreadStop>
    requires args { SoundAll (callable context.now) (zone_in context.now) (length locals.old.items) (trees_of args.now) }
    requires finishes { Finishes context.now strict (count (trees_of args.now)) }
    ensures value { Steps context.now result state.new
        (strict_means context.now strict span (trees_of args.now) locals.old.items state.old) }
    ensures kept { OnOk result (locals.new.items ≡ locals.old.items) }
{
    let values = evaluate_all(alloc, context, args, locals, state)?;
    finish(alloc, context, strict, values, span, state)
}

/// What is done with the values of a node's parts.
#[cycle(evaluate)]
fn finish<'a>(
    alloc: Global,
    context: &Context<'a>,
    strict: Strict,
    values: Vec<Value>,
    span: Span,
    state: &mut State<'a>,
) -> Result<Step, ThreadStop>
    requires { Finishes context.now strict (length values.items) }
    ensures { Steps context.now result state.new (finish_means context.now strict span values.items state.old) }
{
    match strict {
        Strict::Recur => Ok(Step::Recur(values)),
        Strict::Core(op) => as_step(operate(alloc, op, values, span)),
        Strict::Call(function) => as_step(call(alloc, context, function, values, state)),
        Strict::Vector => as_step(collect(alloc, values, span)),
        Strict::Println => as_step(print_line(values, &mut state.thread.printed)),
    }
}

/// The values of the nodes, in order.
#[cycle(evaluate)]
fn evaluate_all<'a>(
    alloc: Global,
    context: &Context<'a>,
    nodes: &'a [Node],
    locals: &mut Vec<Value>,
    state: &mut State<'a>,
) -> Result<Vec<Value>, ThreadStop>
    requires { SoundAll (callable context.now) (zone_in context.now) (length locals.old.items) (trees_of nodes.now) }
    ensures value { GivesAll context.now (λ v. v.items) result state.new
        (all_mean context.now (trees_of nodes.now) locals.old.items state.old) }
    ensures count { IfOk result (λ v. length v.items ≡ count (trees_of nodes.now)) }
    ensures kept { OnOk result (locals.new.items ≡ locals.old.items) }
{
    let mut values = Vec::new(alloc);
    for node in nodes {
        let value = evaluate(alloc, context, node, locals, state)?;
        values.push(value)?;
    }
    Ok(values)
}

/// The nodes in order, with what the last one gives.
#[cycle(evaluate)]
fn evaluate_do<'a>(
    alloc: Global,
    context: &Context<'a>,
    nodes: &'a [Node],
    locals: &mut Vec<Value>,
    state: &mut State<'a>,
) -> Result<Step, ThreadStop>
    requires { InSomeTail (λ tail. SoundDo (callable context.now) (zone_in context.now) (length locals.old.items) tail (trees_of nodes.now)) }
    ensures value { Steps context.now result state.new
        (do_means context.now (trees_of nodes.now) locals.old.items state.old) }
    ensures kept { OnOk result (locals.new.items ≡ locals.old.items) }
{
    let Some((last, before)) = nodes.split_last() else {
        unreachable!()
    };
    drop(evaluate_all(alloc, context, before, locals, state)?);
    evaluate_tail(alloc, context, last, locals, state)
}

/// A form on a cell: the cell, the arguments, and then what the form does, in a transaction or outside.
#[cycle(evaluate)]
fn evaluate_form<'a>(
    alloc: Global,
    context: &Context<'a>,
    act: Act,
    cell: &'a Node,
    args: &'a [Node],
    span: Span,
    wanted: bool,
    locals: &mut Vec<Value>,
    state: &mut State<'a>,
) -> Result<Step, ThreadStop>
    requires cell { SoundTree (callable context.now) (zone_in context.now) (length locals.old.items) None (tree_of cell.now) }
    requires args { SoundAll (callable context.now) (zone_in context.now) (length locals.old.items) (trees_of args.now) }
    requires ready { Ready context.now act (count (trees_of args.now)) }
    ensures value { Steps context.now result state.new
        (form_means context.now act (mark_of span wanted) (tree_of cell.now) (trees_of args.now) locals.old.items state.old) }
    ensures kept { OnOk result (locals.new.items ≡ locals.old.items) }
{
    let cell = evaluate(alloc, context, cell, locals, state)?;
    let args = evaluate_all(alloc, context, args, locals, state)?;
    match context.world() {
        Some(world) => {
            let tx = &mut state.tx;
            as_step(act_inside(alloc, context, world, act, &cell, args, span, wanted, tx))
        }
        None => {
            let thread = &mut state.thread;
            as_step(act_outside(alloc, context, act, &cell, args, span, thread))
        }
    }
}

/// What a form on a cell does in a transaction.
#[cycle(evaluate)]
fn act_inside<'a>(
    alloc: Global,
    context: &Context<'a>,
    world: TxView<'a>,
    act: Act,
    value: &Value,
    args: Vec<Value>,
    span: Span,
    wanted: bool,
    tx: &mut TxWork,
) -> Result<Value, ThreadStop>
    requires { ReadyIn (callable context.now) in_dosync act (length args.items) }
    ensures { Gives (is_whole world.entry.gone) result (tx_state tx.new)
        (inside_means context.now (plain_tx_view world.entry) act (mark_of span wanted) value.now args.items (tx_state tx.old)) }
{
    let cell = take_cell(act.form(), true, value, span)?;
    match act {
        Act::Look(form) => tx.look(&world, form, cell),
        Act::Put(_) => tx.put(cell, args, span),
        Act::Update(form, callee) => update_inside(
            alloc, context, world, form, callee, cell, args, span, wanted, tx,
        ),
        Act::Send(callee) => tx.send(cell, callee, args, span),
    }
}

/// A form that updates a ref: the callee on its value, and then what the form does with the new one.
#[cycle(evaluate)]
fn update_inside<'a>(
    alloc: Global,
    context: &Context<'a>,
    world: TxView<'a>,
    form: UpdateForm,
    callee: Callee,
    cell: CellId,
    args: Vec<Value>,
    span: Span,
    wanted: bool,
    tx: &mut TxWork,
) -> Result<Value, ThreadStop>
    requires form { UpdatesRef form }
    requires cell { RefCell cell }
    requires callee { SoundCallee (callable context.now) callee (suc (length args.items)) }
    ensures { Gives (is_whole world.entry.gone) result (tx_state tx.new)
        (update_means context.now (plain_tx_view world.entry) form callee cell args.items (mark_of span wanted) (tx_state tx.old)) }
{
    context.is_sound();
    let value = tx.begin_update(&world, form, cell)?;
    let new = apply_on(alloc, context, callee, value, args.as_slice(), span)?;
    tx.end_update(form, cell, callee, args, new, span, wanted)
}

/// What a form on a cell does outside every transaction. A send of a thread is at its event too, and an action's is held.
#[cycle(evaluate)]
fn act_outside<'a>(
    alloc: Global,
    context: &Context<'a>,
    act: Act,
    value: &Value,
    args: Vec<Value>,
    span: Span,
    thread: &mut Progress<'a>,
) -> Result<Value, ThreadStop>
    requires world { context.now.world ≡ None }
    requires ready { ReadyIn (callable context.now) in_thread act (length args.items) }
    ensures { (wanted : Bool) → Gives false result (thread_state thread.new)
        (outside_means context.now act (mark_of span wanted) value.now args.items (thread_state thread.old)) }
{
    context.is_sound();
    let cell = take_cell(act.form(), false, value, span)?;
    let inner = context.deepest();
    let values = accept_put(alloc, &inner, act, cell, args, span)?;
    let book = context.home(cell);
    match act {
        Act::Look(_) => {
            let event = thread.next(book)?;
            thread.eat(read_at(event, cell))
        }
        Act::Put(_) => {
            let event = thread.next(book)?;
            thread.eat(reset_at(event, values))
        }
        Act::Update(_, callee) => {
            let event = thread.next(book)?;
            let args = values.as_slice();
            thread.eat(swap(alloc, context, callee, cell, args, span, event))
        }
        Act::Send(callee) => thread.send(cell, callee, values, span),
    }
}

/// The same arguments of a form outside, where the cell's validator accepts the value that the form puts.
#[cycle(evaluate)]
fn accept_put<'a>(
    alloc: Global,
    context: &Context<'a>,
    act: Act,
    cell: CellId,
    args: Vec<Value>,
    span: Span,
) -> Result<Vec<Value>, ThreadStop>
    requires { SoundCells (callable context.now) context.now.cells }
    ensures { MatchResult result (λ vs. (vs.items ≡ args.items) × PutAccepted context.now act cell span args.items)
        (λ y. PutStops context.now act cell span args.items y) }
{
    match act {
        Act::Put(_) => accept_first(alloc, context, cell, args, span),
        Act::Look(_) | Act::Update(_, _) | Act::Send(_) => Ok(args),
    }
}

/// The same values, where the cell's validator accepts the first one.
#[cycle(evaluate)]
fn accept_first<'a>(
    alloc: Global,
    context: &Context<'a>,
    cell: CellId,
    values: Vec<Value>,
    span: Span,
) -> Result<Vec<Value>, ThreadStop>
    requires { SoundCells (callable context.now) context.now.cells }
    ensures { MatchResult result (λ vs. (vs.items ≡ values.items) × FirstAccepted context.now cell span values.items)
        (λ y. FirstStops context.now cell span values.items y) }
{
    let Some(value) = values.first() else {
        return Ok(values);
    };
    accept(alloc, context, cell, value, span)?;
    Ok(values)
}

/// A value that a cell is to get: its validator accepts it, if the cell has one.
#[cycle(evaluate)]
fn accept<'a>(
    alloc: Global,
    context: &Context<'a>,
    cell: CellId,
    value: &Value,
    span: Span,
) -> Result<(), ThreadStop>
    requires { SoundCells (callable context.now) context.now.cells }
    ensures { ToldOf (λ _. value.now) result (accept_means context.now cell span value.now) }
{
    let Some(callee) = validator_of(context.cells(), cell.number) else {
        return Ok(());
    };
    let copy = copy_value(value)?;
    let values = with_first(alloc, copy, &[])?;
    let answer = apply_callee(alloc, context, callee, values, span)?;
    judge(answer, span)
}

/// Each of these writes is accepted, one after the other.
#[cycle(evaluate)]
fn accept_all<'a>(
    alloc: Global,
    context: &Context<'a>,
    writes: &[(CellId, Value)],
    span: Span,
) -> Result<(), ThreadStop>
    requires { SoundCells (callable context.now) context.now.cells }
    ensures { ToldOf (λ _. tt) result (accepted_means context.now span writes.now) }
{
    for write in writes {
        accept(alloc, context, write.0, &write.1, span)?;
    }
    Ok(())
}

/// `swap!` at its event, a swap to what the callee makes of the atom's value, or a broken one, where it faults as the callee or
/// the atom's validator does.
#[cycle(evaluate)]
fn swap<'a>(
    alloc: Global,
    context: &Context<'a>,
    callee: Callee,
    cell: CellId,
    args: &[Value],
    span: Span,
    event: &Seen<'a>,
) -> Result<Value, ThreadStop>
    requires world { context.now.world ≡ None }
    requires callee { SoundCallee (callable context.now) callee (suc (length args.now)) }
    ensures { (t : ThreadState) → AnswersAt result t (swap_means context.now callee cell args.now span (seen_event event.now) t) }
{
    context.is_sound();
    let (world, new) = swap_at(event)?;
    let value = world.read(cell.number)?;
    let inner = context.deepest();
    end_swap(make(alloc, &inner, callee, cell, value, args, span), new)
}

/// What a pure callee makes of a cell's value and these arguments, where the cell's validator accepts it.
#[cycle(evaluate)]
fn make<'a>(
    alloc: Global,
    context: &Context<'a>,
    callee: Callee,
    cell: CellId,
    first: Value,
    args: &[Value],
    span: Span,
) -> Result<Value, ThreadStop>
    requires cells { SoundCells (callable context.now) context.now.cells }
    requires callee { SoundCallee (callable context.now) callee (suc (length args.now)) }
    ensures { Told result (made_means context.now callee cell (first ∷ args.now) span) }
{
    let new = apply_on(alloc, context, callee, first, args, span)?;
    accept(alloc, context, cell, &new, span)?;
    Ok(new)
}

/// A pure callee on a first value and these arguments; an operation's fault has the span.
#[cycle(evaluate)]
fn apply_on<'a>(
    alloc: Global,
    context: &Context<'a>,
    callee: Callee,
    first: Value,
    args: &[Value],
    span: Span,
) -> Result<Value, ThreadStop>
    requires { SoundCallee (callable context.now) callee (suc (length args.now)) }
    ensures { Told result (applied context.now callee (first ∷ args.now) span) }
{
    let values = with_first(alloc, first, args)?;
    apply_callee(alloc, context, callee, values, span)
}

/// A pure callee on these values; an operation's fault has the span.
#[cycle(evaluate)]
pub fn apply_callee<'a>(
    alloc: Global,
    context: &Context<'a>,
    callee: Callee,
    values: Vec<Value>,
    span: Span,
) -> Result<Value, ThreadStop>
    requires { SoundCallee (callable context.now) callee (length values.items) }
    ensures { Told result (applied context.now callee values.items span) }
{
    match callee {
        Callee::Core(op) => operate(alloc, op, values, span),
        Callee::Function(number) => {
            context.is_sound();
            let inner = context.on(TxView::whole(RefView {
                cells: &[],
                swaps: None,
                place: 0,
            }));
            let mut state = State::new(alloc, &[]);
            let given = call(alloc, &inner, number, values, &mut state);
            drop(state);
            given
        }
    }
}

/// A callee on these values outside every transaction, as an action applies one; an operation's fault has the span.
pub fn apply_outside<'a>(
    alloc: Global,
    context: &Context<'a>,
    callee: Callee,
    values: Vec<Value>,
    span: Span,
    state: &mut State<'a>,
) -> Result<Value, ThreadStop>
    requires world { context.now.world ≡ None }
    requires callee { SentCallee (callable context.now) callee (length values.items) }
    ensures { Yields context.now result state.new (applies_means context.now span callee values.items state.old) }
{
    match callee {
        Callee::Core(op) => operate(alloc, op, values, span),
        Callee::Function(number) => call(alloc, context, number, values, state),
    }
}

/// A dosync: in a transaction its body, which joins it; else a transaction of its own.
#[cycle(evaluate)]
fn evaluate_dosync<'a>(
    alloc: Global,
    context: &Context<'a>,
    dosync: Dosync<'a>,
    locals: &mut Vec<Value>,
    state: &mut State<'a>,
) -> Result<Step, ThreadStop>
    requires { SoundTree (callable context.now) in_dosync (length locals.old.items) None (tree_of dosync.body.now) }
    ensures value { Steps context.now result state.new
        (dosync_means context.now (mark_of dosync.entry.span dosync.entry.wanted) (tree_of dosync.entry.body.now) locals.old.items state.old) }
    ensures kept { OnOk result (locals.new.items ≡ locals.old.items) }
{
    if context.world().is_some() {
        return as_step(evaluate(alloc, context, dosync.body, locals, state));
    }
    as_step(eat_dosync(alloc, context, dosync, locals, &mut state.thread))
}

/// A transaction eats retries, and then the event of its end, on whose worlds its body, its commutes and the validators run. That
/// event stays to come where their turns don't suffice.
#[cycle(evaluate)]
fn eat_dosync<'a>(
    alloc: Global,
    context: &Context<'a>,
    dosync: Dosync<'a>,
    locals: &mut Vec<Value>,
    thread: &mut Progress<'a>,
) -> Result<Value, ThreadStop>
    requires world { context.now.world ≡ None }
    requires body { SoundTree (callable context.now) in_dosync (length locals.old.items) None (tree_of dosync.body.now) }
    ensures value { Gives false result (thread_state thread.new)
        (eat_means context.now (suc reruns) (mark_of dosync.entry.span dosync.entry.wanted) (tree_of dosync.entry.body.now) locals.old.items (thread_state thread.old)) }
    ensures kept { OnOk result (locals.new.items ≡ locals.old.items) }
{
    context.is_sound();
    let event = end_of_tx(alloc, context, dosync, locals, thread)?;
    let world = match end_view(event) {
        Some(world) => world,
        None => return Err(ThreadStop::Wrong),
    };
    let run = match run_body(alloc, context, dosync, event.start, locals) {
        Ok(run) => run,
        Err(stop) => return thread.eat(Err(end_stop(event.kind, stop))),
    };
    let inner = context.deepest();
    let last = final_writes(alloc, &inner, &run.work.done, world, dosync.span);
    let given = close(event.kind, run, last, dosync.span, thread);
    thread.eat(given)
}

/// A transaction eats retries, each with its cause. The next event is that of its end; it faults where it is tried too often.
#[cycle(evaluate)]
fn end_of_tx<'a>(
    alloc: Global,
    context: &Context<'a>,
    dosync: Dosync<'a>,
    locals: &mut Vec<Value>,
    thread: &mut Progress<'a>,
) -> Result<&'a Seen<'a>, ThreadStop>
    requires { SoundTree (callable context.now) in_dosync (length locals.old.items) None (tree_of dosync.body.now) }
    ensures value { MatchResult result
        (λ e. EndComes (transacting context.now (mark_of dosync.entry.span dosync.entry.wanted) (tree_of dosync.entry.body.now) locals.old.items) e.now (thread_state thread.old) (thread_state thread.new))
        (λ y. EndsNone (transacting context.now (mark_of dosync.entry.span dosync.entry.wanted) (tree_of dosync.entry.body.now) locals.old.items) y (thread_state thread.old) (thread_state thread.new)) }
    ensures kept { OnOk result (locals.new.items ≡ locals.old.items) }
{
    for _try in 0..TRIES {
        let event = thread.next(0)?;
        if !is_retry(event.kind) {
            return Ok(event);
        }
        rerun(alloc, context, dosync, event, locals)?;
        thread.skip();
    }
    Err(ThreadStop::Fault(Fault {
        kind: FaultKind::RetryLimit,
        span: dosync.span,
    }))
}

/// A try that had to run again has the cause that its event says.
#[cycle(evaluate)]
fn rerun<'a>(
    alloc: Global,
    context: &Context<'a>,
    dosync: Dosync<'a>,
    event: &Seen<'a>,
    locals: &mut Vec<Value>,
) -> Result<(), ThreadStop>
    requires { SoundTree (callable context.now) in_dosync (length locals.old.items) None (tree_of dosync.body.now) }
    ensures value { Reruns (transacting context.now (mark_of dosync.entry.span dosync.entry.wanted) (tree_of dosync.entry.body.now) locals.old.items) event.now.kind.now (world_of (plain_view event.now.start)) result }
    ensures kept { OnOk result (locals.new.items ≡ locals.old.items) }
{
    let touch = match rerun_as(event.kind) {
        Rerun::Outdated(number) => {
            return miss(
                alloc,
                context,
                dosync,
                event.start,
                number,
                locals.as_slice(),
            );
        }
        Rerun::Other => return Err(ThreadStop::Wrong),
        Rerun::Touched(touch) => touch,
    };
    let run = match run_body(alloc, context, dosync, event.start, locals) {
        Ok(run) => run,
        Err(stop) => return Err(stop.without_fault()),
    };
    let given = has_touched(touch, &run.work);
    drop(run);
    given
}

/// The body of a dosync comes to look at the ref with this number, on a world that lacks its value.
#[cycle(evaluate)]
fn miss<'a>(
    alloc: Global,
    context: &Context<'a>,
    dosync: Dosync<'a>,
    world: RefView<'a>,
    number: u16,
    locals: &[Value],
) -> Result<(), ThreadStop>
    requires { SoundTree (callable context.now) in_dosync (length locals.now) None (tree_of dosync.body.now) }
    ensures { Misses result (seen_means context.now (tree_of dosync.entry.body.now) locals.now (record { refs = plain_view world.entry; gone = Some number })) }
{
    context.is_sound();
    let inner = context.on(TxView {
        refs: world,
        gone: Some(number),
    });
    let mut copies = copy_locals(alloc, locals)?;
    let mut state = State::new(alloc, &[]);
    let given = evaluate(alloc, &inner, dosync.body, &mut copies, &mut state);
    drop(state);
    drop(copies);
    has_missed(given)
}

/// The body of a dosync on a world, as if it ran alone.
#[cycle(evaluate)]
fn run_body<'a>(
    alloc: Global,
    context: &Context<'a>,
    dosync: Dosync<'a>,
    world: RefView<'a>,
    locals: &mut Vec<Value>,
) -> Result<Transacted<'a>, ThreadStop>
    requires { SoundTree (callable context.now) in_dosync (length locals.old.items) None (tree_of dosync.body.now) }
    ensures value { Runs result (mark_of dosync.entry.span dosync.entry.wanted) (tree_of dosync.entry.body.now) locals.old.items (body_means context.now (tree_of dosync.entry.body.now) locals.old.items (plain_view world.entry)) }
    ensures sound { IfOk result (λ run. SoundCommutes (callable context.now) run.work.done.commutes) }
    ensures kept { OnOk result (locals.new.items ≡ locals.old.items) }
{
    context.is_sound();
    let inner = context.on(TxView::whole(world));
    let copies = copy_locals(alloc, locals.as_slice())?;
    let mut state = State::new(alloc, &[]);
    match evaluate(alloc, &inner, dosync.body, locals, &mut state) {
        Ok(value) => Ok(Transacted {
            body: dosync.body,
            locals: Listed::from_vec(copies),
            wanted: dosync.wanted,
            result: value,
            work: state.into_tx(),
        }),
        Err(stop) => {
            drop(state);
            drop(copies);
            Err(stop)
        }
    }
}

/// The final writes: each ref that was set has its value, each other commuted ref what its commutes make of the world; and then
/// each is accepted by its ref's validator.
#[cycle(evaluate)]
fn final_writes<'a>(
    alloc: Global,
    context: &Context<'a>,
    done: &TxFrame,
    world: RefView<'a>,
    span: Span,
) -> Result<Vec<(CellId, Value)>, ThreadStop>
    requires cells { SoundCells (callable context.now) context.now.cells }
    requires commutes { SoundCommutes (callable context.now) done.now.commutes }
    ensures { ToldOf (λ ws. ws.items) result (final_means context.now done.now (plain_view world.entry) span) }
{
    let mut writes = first_writes(alloc, done, &world)?;
    redo(alloc, context, done, &mut writes, span)?;
    let last = with_sets(done, writes.as_slice())?;
    accept_all(alloc, context, last.as_slice(), span)?;
    Ok(last)
}

/// The commutes of the refs that weren't set in turn, each of which makes its ref's value anew.
#[cycle(evaluate)]
fn redo<'a>(
    alloc: Global,
    context: &Context<'a>,
    done: &TxFrame,
    writes: &mut Vec<(CellId, Value)>,
    span: Span,
) -> Result<(), ThreadStop>
    requires { SoundCommutes (callable context.now) done.now.commutes }
    ensures { ToldOf (λ _. writes.new.items) result (redone_means context.now span (phase_work done.now) writes.old.items) }
{
    let work = done.phase_work()?;
    let commutes = work.as_slice();
    for commute in commutes {
        redo_one(alloc, context, commute, writes, span)?;
    }
    Ok(())
}

/// A commute makes its ref's value anew.
#[cycle(evaluate)]
fn redo_one<'a>(
    alloc: Global,
    context: &Context<'a>,
    commute: &Commute,
    writes: &mut Vec<(CellId, Value)>,
    span: Span,
) -> Result<(), ThreadStop>
    requires { SoundCallee (callable context.now) commute.now.callee (suc (length commute.now.args)) }
    ensures { ToldOf (λ _. writes.new.items) result (redone_means context.now span (commute.now ∷ []) writes.old.items) }
{
    let value = value_in(writes.as_slice(), commute.cell.number)?;
    let args = commute.args.as_slice();
    let new = apply_on(alloc, context, commute.callee, value, args, span)?;
    put_write(writes, commute.cell, new)?;
    Ok(())
}

/// Binds the nodes' values to further locals, each of which sees the earlier ones.
#[cycle(evaluate)]
fn bind_locals<'a>(
    alloc: Global,
    context: &Context<'a>,
    nodes: &'a [Node],
    locals: &mut Vec<Value>,
    state: &mut State<'a>,
) -> Result<(), ThreadStop>
    requires { SoundLet (callable context.now) (zone_in context.now) (length locals.old.items) (trees_of nodes.now) }
    ensures value { GivesAll context.now (λ _. locals.new.items) result state.new
        (locals_mean context.now (trees_of nodes.now) locals.old.items state.old) }
    ensures count { OnOk result (length locals.new.items ≡ length locals.old.items + count (trees_of nodes.now)) }
    ensures kept { OnOk result (take (length locals.old.items) locals.new.items ≡ locals.old.items) }
{
    for node in nodes {
        let value = evaluate(alloc, context, node, locals, state)?;
        locals.push(value)?;
    }
    Ok(())
}

/// What the body gives with the nodes' values as further locals.
#[cycle(evaluate)]
fn evaluate_let<'a>(
    alloc: Global,
    context: &Context<'a>,
    nodes: &'a [Node],
    body: &'a Node,
    locals: &mut Vec<Value>,
    state: &mut State<'a>,
) -> Result<Step, ThreadStop>
    requires values { SoundLet (callable context.now) (zone_in context.now) (length locals.old.items) (trees_of nodes.now) }
    requires body { InSomeTail (λ tail. SoundTree (callable context.now) (zone_in context.now) (length locals.old.items + count (trees_of nodes.now)) tail (tree_of body.now)) }
    ensures value { Steps context.now result state.new
        (let_means context.now (trees_of nodes.now) (tree_of body.now) locals.old.items state.old) }
    ensures kept { OnOk result (locals.new.items ≡ locals.old.items) }
{
    let before = locals.len();
    bind_locals(alloc, context, nodes, locals, state)?;
    let given = evaluate_tail(alloc, context, body, locals, state);
    locals.truncate(before);
    given
}

/// What the body gives in the last of its turns, of which the first has the nodes' values as further locals.
#[cycle(evaluate)]
fn evaluate_loop<'a>(
    alloc: Global,
    context: &Context<'a>,
    nodes: &'a [Node],
    body: &'a Node,
    locals: &mut Vec<Value>,
    state: &mut State<'a>,
) -> Result<Step, ThreadStop>
    requires values { SoundLet (callable context.now) (zone_in context.now) (length locals.old.items) (trees_of nodes.now) }
    requires body { SoundTree (callable context.now) (zone_in context.now) (length locals.old.items + count (trees_of nodes.now)) (Some (count (trees_of nodes.now))) (tree_of body.now) }
    ensures value { Steps context.now result state.new
        (loop_means context.now (trees_of nodes.now) (tree_of body.now) locals.old.items state.old) }
    ensures kept { OnOk result (locals.new.items ≡ locals.old.items) }
{
    let before = locals.len();
    bind_locals(alloc, context, nodes, locals, state)?;
    let turns = u64::from(context.turns());
    let given = run_turns(alloc, context, body, turns, before, locals, state);
    locals.truncate(before);
    as_step(given)
}

/// At most so many turns of a body, whose own locals are those from `before` on: what it gives in the last one.
#[cycle(evaluate)]
fn run_turns<'a>(
    alloc: Global,
    context: &Context<'a>,
    body: &'a Node,
    turns: u64,
    before: usize,
    locals: &mut Vec<Value>,
    state: &mut State<'a>,
) -> Result<Value, ThreadStop>
    requires place { before ≤ length locals.old.items }
    requires body { SoundTree (callable context.now) (zone_in context.now) (length locals.old.items) (Some (length locals.old.items - before)) (tree_of body.now) }
    ensures value { Yields context.now result state.new
        (turns_mean context.now turns (length locals.old.items - before) (tree_of body.now) (take before locals.old.items) (drop before locals.old.items) state.old) }
    ensures kept { OnOk result (take before locals.new.items ≡ take before locals.old.items) }
{
    context.is_sound();
    for _turn in 0..turns {
        match evaluate_tail(alloc, context, body, locals, state)? {
            Step::Value(value) => return Ok(value),
            Step::Recur(values) => rebind(locals, before, values)?,
        }
    }
    Err(ThreadStop::Turns)
}

/// What the function of this number gives on these values, which are its first locals. A call is no turn: its body runs once, and
/// each recur to it is a turn.
#[cycle(evaluate)]
fn call<'a>(
    alloc: Global,
    context: &Context<'a>,
    number: u16,
    mut values: Vec<Value>,
    state: &mut State<'a>,
) -> Result<Value, ThreadStop>
    requires { SoundCall (callable context.now) (zone_in context.now) number (length values.items) }
    ensures { Yields context.now result state.new
        (call_means context.now number values.items state.old) }
{
    let function = context.function(usize::from(number));
    let inner = context.deeper();
    let body = &function.body;
    let turns = u64::from(context.turns());
    run_turns(alloc, &inner, body, turns + 1, 0, &mut values, state)
}
