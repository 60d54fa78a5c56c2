//! How many locals are live at once.

ghost use Rattle.std.specs.Prelude.{◌≡◌, ◌<◌, ◌≤◌, ◌+◌, max, nat_le, MatchOption};
ghost use Rattle.txs_opt.specs.Inline.{bound};
ghost use Rattle.txs_tree_meaning.specs.Locals.{reach, reach_all, reach_let};
ghost use Rattle.txs_tree_meaning.specs.Tree.{count};
ghost use Rattle.txs_tree_meaning.specs.View.{tree_of, trees_of};
ghost use Rattle.txs_value_data.specs.Limits.{most_locals};

use txs_tree_meaning::{Node, Shape, view};
use txs_value_data::limits::MOST_LOCALS;

/// So many locals, or those up to this one, where they keep the limit.
fn up_to(live: usize, number: u8) -> Option<usize>
    requires { live ≤ most_locals }
    ensures { MatchOption result (most_locals ≤ number) (λ most. (most ≡ max live (number + 1)) × (most ≤ most_locals)) }
{
    let number = usize::from(number);
    if number >= MOST_LOCALS {
        return None;
    }
    Some(live.max(number + 1))
}

/// How many locals are live behind the values of a let.
pub fn behind(live: usize, values: &[Node]) -> usize
    requires { reach_let live (trees_of values.now) ≤ most_locals }
    ensures { result ≡ live + count (trees_of values.now) }
{
    live + values.len()
}

/// The most locals that are live at once in one of these nodes, where so many are live before each; none over the limit.
#[cycle(reach)]
fn reach_of_all(live: usize, nodes: &[Node]) -> Option<usize>
    requires { live ≤ most_locals }
    ensures { MatchOption result (most_locals < reach_all live (trees_of nodes.now)) (λ most. (most ≡ reach_all live (trees_of nodes.now)) × (most ≤ most_locals)) }
{
    let mut most = 0;
    for node in nodes {
        let Some(here) = reach_of(live, node) else {
            return None;
        };
        most = here.max(most);
    }
    Some(live.max(most))
}

/// The most locals that are live at once in the values of a let, each of which sees those before it; none over the limit.
#[cycle(reach)]
fn reach_of_let(live: usize, values: &[Node]) -> Option<usize>
    requires { live ≤ most_locals }
    ensures { MatchOption result (most_locals < reach_let live (trees_of values.now)) (λ most. (most ≡ reach_let live (trees_of values.now)) × (most ≤ most_locals)) }
{
    let mut most = 0;
    let mut before = live;
    for value in values {
        let Some(here) = reach_of(before, value) else {
            return None;
        };
        if before == MOST_LOCALS {
            return None;
        }
        before += 1;
        most = here.max(most);
    }
    Some(before.max(most))
}

/// The most locals that are live at once in a let or loop of these values with this body; none over the limit.
#[cycle(reach)]
fn reach_of_binding(live: usize, values: &[Node], body: &Node) -> Option<usize>
    requires { live ≤ most_locals }
    ensures { MatchOption result (most_locals < max (reach_let live (trees_of values.now)) (reach (live + count (trees_of values.now)) (tree_of body.now)))
        (λ most. (most ≡ max (reach_let live (trees_of values.now)) (reach (live + count (trees_of values.now)) (tree_of body.now))) × (most ≤ most_locals)) }
{
    let most = reach_of_let(live, values)?;
    let body = reach_of(behind(live, values), body)?;
    Some(most.max(body))
}

/// The most locals that are live at once in the node, where so many are live before it; none over the limit.
#[cycle(reach)]
pub fn reach_of(live: usize, node: &Node) -> Option<usize>
    requires { live ≤ most_locals }
    ensures { MatchOption result (most_locals < reach live (tree_of node.now)) (λ most. (most ≡ reach live (tree_of node.now)) × (most ≤ most_locals)) }
{
    match view(node) {
        Shape::Const(_) => Some(live),
        Shape::Local(number) => up_to(live, number),
        Shape::If(test, yes, no) => {
            let test = reach_of(live, test)?;
            let yes = reach_of(live, yes)?;
            let no = reach_of(live, no)?;
            Some(test.max(yes.max(no)))
        }
        Shape::Row(_, parts) => reach_of_all(live, parts),
        Shape::Let(values, body) => reach_of_binding(live, values, body),
        Shape::Loop(values, body) => reach_of_binding(live, values, body),
        Shape::Dosync(body) => reach_of(live, body),
        Shape::Look(_, cell) => reach_of(live, cell),
        Shape::Put(_, cell, value) => {
            let cell = reach_of(live, cell)?;
            let value = reach_of(live, value)?;
            Some(cell.max(value))
        }
        Shape::Update(_, cell, _, args) => {
            let cell = reach_of(live, cell)?;
            let args = reach_of_all(live, args)?;
            Some(cell.max(args))
        }
        Shape::Send(cell, _, args) => {
            let cell = reach_of(live, cell)?;
            let args = reach_of_all(live, args)?;
            Some(cell.max(args))
        }
    }
}

/// Whether the limit holds in the node, where so many locals are live before it, and so many more come in.
pub fn has_few(live: usize, more: usize, node: &Node) -> bool
    requires { (live ≤ most_locals) × (more ≤ most_locals) }
    ensures { result ≡ nat_le (reach live (tree_of node.now) + more) most_locals }
{
    match reach_of(live, node) {
        Some(most) => most + more <= MOST_LOCALS,
        None => false,
    }
}

/// Whether the limit holds in these arguments as the values of a let, and behind them.
pub fn values_have_few(live: usize, args: &[Node]) -> bool
    requires { live ≤ most_locals }
    ensures { result ≡ nat_le (reach_let live (bound live 0 (trees_of args.now))) most_locals }
{
    if args.len() > MOST_LOCALS - live {
        return false;
    }
    for at in 0..args.len() {
        if !has_few(live, at, &args[at]) {
            return false;
        }
    }
    true
}
