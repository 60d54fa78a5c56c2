//! Something is told exactly where an audit differs, and of that place; and it is true.

ghost use Rattle.txs_audit_difference.specs.Difference.{ToldWhereItDiffers};
ghost use Rattle.txs_audit_difference.specs.Truth.{DifferencesAreTrue};

use txs_theorem_audit::pieces_are_all;

/// A difference is told exactly where an audit differs, and of the place that the audit names.
pub fn told_where_it_differs()
    ensures { ToldWhereItDiffers }
{
    pieces_are_all();
}

/// Whatever is told to differ is true of the report.
pub fn differences_are_true()
    ensures { DifferencesAreTrue }
{}
