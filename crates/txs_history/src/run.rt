//! What a run by workers is of.

use crate::Naming;
use std::marker::Brand;

/// What a run by workers is of: its code, and how many steps an actor may make. Each call of a program picks it. So stores, atoms and actors
/// of one `J` are of one run, and no codes are compared.
pub trait Run: Naming {
    ghost use Rattle.std.specs.Prelude.{ℕ};
    ghost use Rattle.txs_code_meaning.specs.PlainCode.{PlainCode};

    ghost code: { PlainCode };

    ghost limit: { ℕ };
}

impl Run for Brand {
    ghost use Rattle.std.specs.Prelude.{[]};

    ghost code = { record { cells = []; constants = []; functions = []; threads = [] } };

    ghost limit = { 0 };
}
