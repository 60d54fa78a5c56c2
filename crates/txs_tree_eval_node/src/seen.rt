//! Events as the evaluators get them.

use txs_tree_eval_transaction::RefView;
use txs_world_protocol::EventKind;

/// An event with the number of its book, 0 for the store's and n for that of the n-th atom, and the values of cells at its
/// places: where its transaction began, at its transaction's last view, and at the event itself. For an atom's book the
/// first is the place at which a swap was opened.
#[derive(Clone, Copy)]
pub struct Seen<'a> {
    pub book: usize,
    pub kind: &'a EventKind,
    pub start: RefView<'a>,
    pub view: RefView<'a>,
    pub here: RefView<'a>,
}
