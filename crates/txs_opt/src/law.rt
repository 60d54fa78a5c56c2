//! The laws of folding and inlining.

ghost use Rattle.txs_opt.specs.Keeps.{FoldKeepsProgram};
ghost use Rattle.txs_opt.specs.Keeps.{FoldKeepsPure};
ghost use Rattle.txs_opt.specs.Keeps.{FoldKeepsSound};
ghost use Rattle.txs_opt.specs.Keeps.{FoldKeepsThread};
ghost use Rattle.txs_opt.specs.Keeps.{FoldKeepsTx};
ghost use Rattle.txs_opt.specs.Keeps.{InlineKeepsBudget};
ghost use Rattle.txs_opt.specs.Keeps.{InlineKeepsProgram};
ghost use Rattle.txs_opt.specs.Keeps.{InlineKeepsPure};
ghost use Rattle.txs_opt.specs.Keeps.{InlineKeepsSound};
ghost use Rattle.txs_opt.specs.Keeps.{InlineKeepsThread};
ghost use Rattle.txs_opt.specs.Keeps.{InlineKeepsTx};

/// Pure code means the same when it is folded, for every bound on loops, faults with their spans.
pub fn fold_keeps_pure()
    ensures { FoldKeepsPure }
{}

/// A transaction's body means the same when it is folded.
pub fn fold_keeps_transactions()
    ensures { FoldKeepsTx }
{}

/// A thread means the same when it is folded, on any events.
pub fn fold_keeps_threads()
    ensures { FoldKeepsThread }
{}

/// A program means the same when it is folded: its pure callees, its threads one by one, and its actions.
pub fn fold_keeps_programs()
    ensures { FoldKeepsProgram }
{}

/// A folded program is sound.
pub fn fold_keeps_sound()
    ensures { FoldKeepsSound }
{}

/// Pure code of sound functions means the same with calls inlined, for every bound on loops, faults with their spans.
pub fn inline_keeps_pure()
    ensures { InlineKeepsPure }
{}

/// A transaction's body, which calls sound functions, means the same with calls inlined.
pub fn inline_keeps_transactions()
    ensures { InlineKeepsTx }
{}

/// A sound thread means the same with calls inlined, on any events.
pub fn inline_keeps_threads()
    ensures { InlineKeepsThread }
{}

/// A sound program means the same with calls inlined: its pure callees, its threads one by one, and its actions.
pub fn inline_keeps_programs()
    ensures { InlineKeepsProgram }
{}

/// A program with calls inlined is sound.
pub fn inline_keeps_sound()
    ensures { InlineKeepsSound }
{}

/// A program with calls inlined has no more nodes than it may get.
pub fn inline_keeps_budget()
    ensures { InlineKeepsBudget }
{}
