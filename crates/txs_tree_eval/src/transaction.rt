//! What a transaction means on one world of refs.

ghost use Rattle.std.specs.Prelude.{◌≡◌, length, IfOk, None, true};
ghost use Rattle.txs_tree_eval.specs.Told.{TellsTx, Waitless};
ghost use Rattle.txs_tree_eval_transaction.specs.Worked.{Gives, tx_state};
ghost use Rattle.txs_tree_meaning.specs.Known.{known};
ghost use Rattle.txs_tree_meaning.specs.Sound.{SoundTree, in_dosync};
ghost use Rattle.txs_tree_meaning.specs.Meaning.{Completion};
ghost use Rattle.txs_tree_meaning.specs.Transaction.{TxState, tx_meaning};
ghost use Rattle.txs_tree_meaning.specs.View.{functions_of, tree_of};
ghost use Rattle.txs_tree_eval_transaction.specs.Views.{plain_view, world_of};
ghost use Rattle.txs_value_data.specs.declared.value.Value.{Value as AnyValue};

use crate::pure_call::EvalStop;
use std::alloc::Global;
use txs_frame::TxFrame;
use txs_tree_eval_node::evaluate::{copy_locals, evaluate};
use txs_tree_eval_node::{Context, State};
use txs_tree_eval_transaction::{RefView, ThreadStop, TxView, TxWork};
use txs_tree_meaning::{Node, Program};
use txs_value_data::{CellId, Fault, Listed, Value};

/// What a transaction means: its value or fault, and until then its values, sets, ensures, commutes and sends, the refs that
/// it read of the world, by ascending number, and whether the result of a commute was used.
#[derive(Drop)]
pub struct TxMeaning {
    pub result: Result<Value, Fault>,
    pub done: TxFrame,
    pub reads: Listed<CellId>,
    pub used: bool,
}

/// What is known of a transaction that gave this and did this work.
pub(crate) fn meaning_of(gave: Result<Value, Fault>, work: TxWork) -> TxMeaning
    ensures { result ≡ record { result = gave; done = work.done; reads = work.reads.items; used = work.used } }
{
    TxMeaning {
        result: gave,
        done: work.done,
        reads: Listed::from_vec(work.reads),
        used: work.used,
    }
}

/// What the body of a dosync means on a world of refs, with these values as its locals, as if it ran alone, where each loop
/// makes at most `turns` turns. The node is the body of a dosync of the program, and the values fill its locals. A fault of
/// the body is in the meaning.
pub fn eval_tx<'a>(
    alloc: Global,
    program: &'a Program,
    node: &'a Node,
    values: &[Value],
    world: RefView<'a>,
    turns: u32,
) -> Result<TxMeaning, EvalStop>
    requires { SoundTree (known (functions_of program.now.functions)) in_dosync (length values.now) None (tree_of node.now) }
    ensures { TellsTx result (tx_meaning turns (functions_of program.now.functions) (length program.now.functions) (tree_of node.now) values.now (world_of (plain_view world.entry))) }
{
    program.is_sound();
    let seen = Some(TxView::whole(world));
    let context = Context::new(program.cells(), program.functions(), turns, seen);
    let mut locals = copy_locals(alloc, values)?;
    let mut state = State::new(alloc, &[]);
    let gave = evaluate(alloc, &context, node, &mut locals, &mut state);
    tell_tx(gave, state.into_tx())
}

/// What is known of a body that met no event, and gave this and did this work.
fn tell_tx(gave: Result<Value, ThreadStop>, work: TxWork) -> Result<TxMeaning, EvalStop>
    requires { Waitless gave }
    ensures { (c : Completion TxState AnyValue) → Gives true gave (tx_state work) c → TellsTx result c }
{
    let stop = match gave {
        Ok(value) => return Ok(meaning_of(Ok(value), work)),
        Err(stop) => stop,
    };
    match stop {
        ThreadStop::Fault(fault) => Ok(meaning_of(Err(fault), work)),
        ThreadStop::Turns => Err(EvalStop::Turns),
        ThreadStop::Memory => Err(EvalStop::Memory),
        ThreadStop::Event | ThreadStop::Wrong => unreachable!(),
    }
}
