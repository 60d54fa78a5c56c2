//! How many nodes a body has.

ghost use Rattle.std.specs.Prelude.{◌≡◌, ◌<◌, ◌+◌, MatchOption};
ghost use Rattle.txs_tree_meaning.specs.Sound.{nodes, nodes_in};
ghost use Rattle.txs_tree_meaning.specs.View.{tree_of, trees_of};

use crate::parts::parts;
use txs_tree_meaning::Node;

/// How many of so many nodes are left after those of this one; none where it has more.
#[cycle(nodes)]
pub fn nodes_left(node: &Node, limit: u32) -> Option<u32>
    ensures { MatchOption result (limit < nodes (tree_of node.now))
        (λ left. left + nodes (tree_of node.now) ≡ limit) }
{
    if limit == 0 {
        return None;
    }
    let (first, second, third) = parts(node);
    let left = all_nodes_left(first, limit - 1)?;
    let left = all_nodes_left(second, left)?;
    all_nodes_left(third, left)
}

/// The same of all the nodes.
#[cycle(nodes)]
fn all_nodes_left(nodes: &[Node], limit: u32) -> Option<u32>
    ensures { MatchOption result (limit < nodes_in (trees_of nodes.now))
        (λ left. left + nodes_in (trees_of nodes.now) ≡ limit) }
{
    let mut left = limit;
    for node in nodes {
        let Some(rest) = nodes_left(node, left) else {
            return None;
        };
        left = rest;
    }
    Some(left)
}
