//! A script's forms to the program that they are.

ghost use Rattle.std.specs.Prelude.{◌≡◌, ◌≢◌, IfOk, IfErr, OnOk};
ghost use Rattle.txs_resolve.specs.Given.{Ends};
ghost use Rattle.txs_resolve_expand.specs.Namespace.{behind_namespace};
ghost use Rattle.txs_resolve.specs.Names.{Resolves, ResolveStops, no_memory, nothing, steps};
ghost use Rattle.txs_resolve.specs.Memory.{FirstResolves};
ghost use Rattle.txs_resolve.specs.Scripts.{state_of, IsScript};
ghost use Rattle.txs_resolve.specs.declared.stop.Stop.TheVariants as stop;
ghost use Rattle.txs_resolve_expand.specs.declared.error.ResolveErrorKind.TheVariants.{Memory};
ghost use Rattle.txs_reader.specs.Tree.{trees};
ghost use Rattle.txs_tree_meaning.specs.View.{program_of};

use crate::Stop;
use crate::script::{Script, step};
use std::alloc::Global;
use txs_reader::Form;
use txs_resolve_expand::{ResolveError, ResolveErrorKind, behind_namespace};
use txs_tree_meaning::Raw;
use txs_value_data::Span;

/// Defines what all top-level forms define.
fn steps<'a>(alloc: Global, script: &mut Script<'a>, forms: &'a [Form]) -> Result<(), Stop>
    requires { IsScript script.old }
    ensures state { Ends result (state_of script.new) (steps (state_of script.old) (trees forms.now)) }
    ensures next { OnOk result (IsScript script.new) }
    ensures memory { IfErr result (λ e. e ≡ stop.Memory → FirstResolves (state_of script.old) (trees forms.now)) }
{
    for form in forms {
        step(alloc, script, form)?;
    }
    Ok(())
}

/// The program that the forms of a script are: an optional `(ns name)`, and then definitions of constants,
/// refs, atoms and agents, functions and futures. Each symbol stands for the nearest enclosing local, else for
/// the definition before it, else for a core operation. Forms are walked in source order, each before its
/// parts, and an initial value before the cell's validator, which comes before the name; at one form the lower number comes first. A form's shape is
/// looked at before whether its node finds room among the 1,000 levels. What a form on a cell calls is looked
/// at behind the cell.
///
/// # Errors
/// The first refusal met, with the span of the symbol or form that is refused; `Memory` at 0..0 where the
/// program didn't fit into memory, which is never said of a script whose first form, behind the `(ns name)`, is refused.
pub fn resolve(alloc: Global, forms: &[Form]) -> Result<Raw, ResolveError>
    ensures ok { IfOk result (λ raw. Resolves (trees forms.now) (program_of raw)) }
    ensures err { IfErr result (λ e. e.kind ≢ Memory → ResolveStops (trees forms.now) e) }
    ensures want { IfErr result (λ e. e.kind ≡ Memory → e ≡ no_memory) }
    // So a script whose first form is refused is refused for that.
    ensures memory { IfErr result (λ e. e.kind ≡ Memory → FirstResolves nothing (behind_namespace (trees forms.now))) }
{
    let mut script = Script::new(alloc);
    match steps(alloc, &mut script, behind_namespace(forms)) {
        Ok(()) => Ok(Raw::new(
            script.cells,
            script.validator_spans,
            script.functions,
            script.threads,
        )),
        Err(Stop::Refused(error)) => {
            // A call, as each part of the script would else be dropped in a place of its own.
            drop(script);
            Err(error)
        }
        Err(Stop::Memory) => {
            drop(script);
            Err(ResolveError {
                kind: ResolveErrorKind::Memory,
                at: Span { from: 0, to: 0 },
            })
        }
    }
}
