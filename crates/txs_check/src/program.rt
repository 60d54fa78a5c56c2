//! The check of a program.

ghost use Rattle.std.specs.Prelude.{◌≡◌, ◌≢◌, IfOk, IfErr};
ghost use Rattle.txs_tree_meaning.specs.Sound.{Sound};
ghost use Rattle.txs_tree_meaning.specs.View.{program_of};
ghost use Rattle.txs_check.specs.Errors.{out_of_memory};
ghost use Rattle.txs_check.specs.Refused.{CheckStops};
ghost use Rattle.txs_check.specs.declared.error.CheckErrorKind.TheVariants.{Memory};

use crate::bodies::{check_bodies, room_after_all};
use crate::class::signatures_of;
use crate::error::CheckError;
use crate::law::sound_where_nothing_refuses;
use crate::validators::Validators;
use std::alloc::Global;
use txs_tree_meaning::{Program, Raw};
use txs_value_data::limits::MOST_NODES;

/// Whether nothing of the program is refused: then it is sound.
fn check_raw(alloc: Global, raw: &Raw) -> Result<(), CheckError>
    ensures sound { IfOk result (λ _. Sound (program_of raw.now)) }
    ensures stops { IfErr result (λ e. e.kind ≢ Memory → CheckStops (program_of raw.now) e) }
    ensures memory { IfErr result (λ e. e.kind ≡ Memory → e ≡ out_of_memory) }
{
    let functions = raw.functions();
    let threads = raw.threads();
    let signatures = signatures_of(alloc, functions)?;
    let validators = Validators {
        cells: raw.cells(),
        spans: raw.validator_spans(),
    };
    check_bodies(signatures.as_slice(), functions, threads, validators)?;
    room_after_all(MOST_NODES, functions, threads)?;
    // Laws that the proof uses; they do nothing when they run.
    sound_where_nothing_refuses();
    Ok(())
}

/// Checks a program whose names are resolved: it is sound, or is handed back with the first refusal in source
/// order. Where a form is refused for several reasons, a `dosync` between a recur and its target comes before
/// a place that isn't the target's tail, and else the lower number comes first; the size is looked at last.
///
/// # Errors
/// `RecurNotTail`, `RecurCount`, `RecurAcrossDosync`, `Arity`, `NotPure`, `InsideOnly` and `OutsideOnly` at the
/// form that is refused, `Arity` and `NotPure` also at a cell's validator; `CodeTooLarge` at the definition or future with which the program has more than
/// 200,000 nodes; `Memory`, at 0..0, where there was no memory for the checks.
pub fn check(alloc: Global, raw: Raw) -> Result<Program, (Raw, CheckError)>
    ensures same { IfOk result (λ p. p ≡ raw) }
    ensures sound { IfOk result (λ p. Sound (program_of p)) }
    ensures back { IfErr result (λ x. x.0 ≡ raw) }
    ensures stops { IfErr result (λ x. x.1.kind ≢ Memory → CheckStops (program_of raw) x.1) }
    ensures memory { IfErr result (λ x. x.1.kind ≡ Memory → x.1 ≡ out_of_memory) }
{
    match check_raw(alloc, &raw) {
        Ok(()) => Ok(Program::new(raw)),
        Err(e) => Err((raw, e)),
    }
}
