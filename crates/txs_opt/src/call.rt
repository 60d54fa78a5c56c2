//! Calls that become the function's body.

ghost use Rattle.std.specs.Prelude.{◌≡◌, ◌<◌, ◌≤◌, ◌-◌, IfOk, MatchOption, false, nat_le, true};
ghost use Rattle.txs_opt.specs.Inline.{bound, called, let_of_call, may_inline, most_inlined};
ghost use Rattle.txs_tree_meaning.specs.Locals.{reach, reach_let};
ghost use Rattle.txs_tree_meaning.specs.Sound.{nodes};
ghost use Rattle.txs_tree_meaning.specs.Tree.{Mark};
ghost use Rattle.txs_tree_meaning.specs.View.{function_of, functions_of, mark_of, tree_of, trees_of};
ghost use Rattle.txs_value_data.specs.Places.{nth};
ghost use Rattle.txs_value_data.specs.Limits.{most_locals};

use crate::locals::{has_few, values_have_few};
use crate::tail::has_recur;
use std::alloc::{AllocError, Global};
use txs_check::nodes_left;
use txs_tree_meaning::{Function, Node, Row, Shift, Spot, let_node, row_node, shift_node};

/// The nodes that a function's body may have, so that calls of it become its body.
const MOST_INLINED: u32 = 40;

/// How many nodes a body has; none where it isn't small.
fn small_size(body: &Node) -> Option<u32>
    ensures { MatchOption result (most_inlined < nodes (tree_of body.now)) (λ n. (n ≡ nodes (tree_of body.now)) × (n ≤ most_inlined)) }
{
    let left = nodes_left(body, MOST_INLINED)?;
    Some(MOST_INLINED - left)
}

/// Whether the limit on locals holds in the let in the place of a call, where so many are live.
fn let_has_few(live: usize, body: &Node, args: &[Node]) -> bool
    requires { live ≤ most_locals }
    ensures { (m : Mark) → result ≡ nat_le (reach live (let_of_call live (tree_of body.now) (trees_of args.now) m)) most_locals }
{
    if !values_have_few(live, args) {
        return false;
    }
    has_few(args.len(), live, body)
}

/// How many nodes more the program may get behind a call of the function that becomes its body; none where it may not become it.
fn budget_after(live: usize, function: &Function, args: &[Node], budget: u32) -> Option<u32>
    requires { live ≤ most_locals }
    ensures { (m : Mark) → MatchOption result (may_inline live (function_of function.now) (trees_of args.now) m budget ≡ false)
        (λ left. (may_inline live (function_of function.now) (trees_of args.now) m budget ≡ true) × (left ≡ budget - nodes (tree_of function.now.body))) }
{
    let size = small_size(&function.body)?;
    if has_recur(&function.body) {
        return None;
    }
    if usize::from(function.parameters) != args.len() {
        return None;
    }
    if size > budget {
        return None;
    }
    if !let_has_few(live, &function.body, args) {
        return None;
    }
    Some(budget - size)
}

/// The arguments as the values of a let, each of which sees those before it.
fn values_of(alloc: Global, live: u8, args: &[Node]) -> Result<Vec<Node>, AllocError>
    requires { reach_let live (bound live 0 (trees_of args.now)) ≤ most_locals }
    ensures { IfOk result (λ v. trees_of v.items ≡ bound live 0 (trees_of args.now)) }
{
    let mut values = Vec::with_capacity(alloc, args.len())?;
    for at in 0..args.len() {
        let by = at as u8;
        values.push(shift_node(alloc, Shift { from: live, by }, &args[at])?)?;
    }
    Ok(values)
}

/// The let in the place of a call, where so many locals are live.
fn let_of(
    alloc: Global,
    live: u8,
    spot: Spot,
    body: &Node,
    args: &[Node],
) -> Result<Node, AllocError>
    requires { reach live (let_of_call live (tree_of body.now) (trees_of args.now) (mark_of spot.span spot.wanted)) ≤ most_locals }
    ensures { IfOk result (λ n. tree_of n ≡ let_of_call live (tree_of body.now) (trees_of args.now) (mark_of spot.span spot.wanted)) }
{
    let values = values_of(alloc, live, args)?;
    let body = shift_node(alloc, Shift { from: 0, by: live }, body)?;
    let_node(alloc, spot, values, body)
}

/// A call where so many locals are live and the program may get so many nodes more: the let with the function's body where it may
/// become it, or the call.
pub fn call_node(
    alloc: Global,
    done: &[Function],
    live: usize,
    budget: &mut u32,
    spot: Spot,
    number: u16,
    args: Vec<Node>,
) -> Result<Node, AllocError>
    requires { live ≤ most_locals }
    ensures { IfOk result (λ n. (tree_of n ≡ (called (nth (functions_of done.now) number) live number (trees_of args.items) (mark_of spot.span spot.wanted) budget.old).tree)
        × (budget.new ≡ (called (nth (functions_of done.now) number) live number (trees_of args.items) (mark_of spot.span spot.wanted) budget.old).budget)) }
{
    let at = usize::from(number);
    if at >= done.len() {
        return Ok(row_node(spot, Row::Call(number), args));
    }
    let function = &done[at];
    let values = args.as_slice();
    match budget_after(live, function, values, *budget) {
        Some(left) => {
            let opened = let_of(alloc, live as u8, spot, &function.body, values)?;
            *budget = left;
            Ok(opened)
        }
        None => Ok(row_node(spot, Row::Call(number), args)),
    }
}
