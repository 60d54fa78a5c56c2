//! What the code of every script has.

ghost use Rattle.txs_compile.specs.Law.{ScriptsHaveForms};

/// The code of the sound program of a script, optimised, has a byte form: what the reader reads, the resolver resolves, folding and
/// inlining make of it and the generator makes stays within what the form can write.
pub fn code_of_script_has_form()
    ensures { ScriptsHaveForms }
{}
