//! The `(ns name)` that a script may begin with.

ghost use Rattle.std.specs.Prelude.{◌≡◌, Some};
ghost use Rattle.txs_resolve_expand.specs.Expansions.{form_at};
ghost use Rattle.txs_resolve_expand.specs.Namespace.{behind_namespace, is_namespace, names_space};
ghost use Rattle.txs_resolve_expand.specs.declared.names.FormName.TheVariants.{Ns};
ghost use Rattle.txs_reader.specs.Tree.{tree, trees, trees_of};

use crate::FormName;
use crate::parts::form_at;
use crate::shapes::is_symbol;
use txs_reader::{Bracket, Form};

/// Whether there is one part, which is a symbol.
fn is_name(parts: &[Form]) -> bool
    ensures { result ≡ names_space (Some Ns) (trees_of (trees parts.now)) }
{
    if parts.len() != 1 {
        return false;
    }
    is_symbol(&parts[0])
}

/// Whether a list with this head and these parts is `(ns name)`.
fn names_space(head: &Form, parts: &[Form]) -> bool
    ensures { result ≡ names_space (form_at (tree head.now)) (trees_of (trees parts.now)) }
{
    match form_at(head) {
        Some(FormName::Ns) => is_name(parts),
        _ => false,
    }
}

/// Whether the form is `(ns name)`.
fn is_namespace(form: &Form) -> bool
    ensures { result ≡ is_namespace (tree form.now) }
{
    let Form::Group(Bracket::Round, forms, _) = form else {
        return false;
    };
    let Some((head, parts)) = forms.split_first() else {
        return false;
    };
    names_space(head, parts)
}

/// The forms behind the `(ns name)` that they begin with, if they do.
pub fn behind_namespace(forms: &[Form]) -> &[Form]
    ensures { trees result.now ≡ behind_namespace (trees forms.now) }
{
    match forms.split_first() {
        Some((form, rest)) if is_namespace(form) => rest,
        _ => forms,
    }
}
