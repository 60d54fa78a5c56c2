//! What all code has that has a byte form.

ghost use Rattle.std.specs.Prelude.{◌≤◌, length};
ghost use Rattle.txs_code_decode.specs.CodeForm.{HasForm};
ghost use Rattle.txs_code_meaning.specs.OwnCells.{NamesOwnCells};
ghost use Rattle.txs_verify.specs.Verdict.{IsInForm};

use txs_code_meaning::Code;

/// Code that has a byte form is such as the verifier takes, and names its own cells alone; and it has no more cells and threads than the
/// limits allow.
pub fn form_is_taken(_code: &Code)
    requires { HasForm _code.now }
    ensures in_form { IsInForm _code.now }
    ensures own_cells { NamesOwnCells _code.now }
    ensures few_cells { length _code.now.cells ≤ 1000 }
    ensures few_threads { length _code.now.threads ≤ 64 }
{}
