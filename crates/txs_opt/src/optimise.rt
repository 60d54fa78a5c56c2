//! Programs folded, with calls inlined, and folded again, at once.

ghost use Rattle.std.specs.Prelude.{◌≡◌, ◌||◌, IfOk};
ghost use Rattle.txs_opt.specs.Optimised.{functions_call, optimised, threads_call};
ghost use Rattle.txs_tree_meaning.specs.View.{functions_of, program_of, threads_of};

use crate::find_calls::{functions_have_call, threads_have_call};
use crate::fold_program::folded_copy;
use crate::inline_program::inlined_copy;
use std::alloc::{AllocError, Global};
use txs_tree_meaning::Program;

/// Whether a call is in the program.
fn has_calls(program: &Program) -> bool
    ensures { result ≡ (functions_call (functions_of program.now.functions) || threads_call (threads_of program.now.threads)) }
{
    if functions_have_call(program.functions()) {
        return true;
    }
    threads_have_call(program.threads())
}

/// The program folded, with calls inlined, and folded again, in memory of its own. Nothing is left for the second folding, and
/// nothing to inline where there is no call: so it isn't looked for.
///
/// # Errors
/// There was no memory.
pub fn optimised_copy(alloc: Global, program: &Program, limit: u32) -> Result<Program, AllocError>
    ensures { IfOk result (λ p. program_of p ≡ optimised limit (program_of program.now)) }
{
    let folded = folded_copy(alloc, program)?;
    if has_calls(&folded) {
        return inlined_copy(alloc, &folded, limit);
    }
    Ok(folded)
}
