//! What a `def` is of: a constant, or a cell that opens with one.

ghost use Rattle.std.specs.Prelude.{◌≡◌, Some};
ghost use Rattle.txs_reader.specs.Tree.{tree, trees, trees_of};
ghost use Rattle.txs_resolve_expand.specs.Expansions.{form_at};
ghost use Rattle.txs_resolve.specs.Names.{cell_of, defining_of, first_validator, is_error_mode, is_validator, kind_at, mode_of, mode_or_fail, only_literal, opened, options_behind, with_mode, with_option};
ghost use Rattle.txs_resolve.specs.Literals.{are_literals, is_literal};
ghost use Rattle.txs_resolve.specs.Scripts.{defining, form_in, options_as, options_in};

use txs_reader::{Bracket, Form};
use txs_resolve_expand::{FormName, form_at};
use txs_value_cell::ErrorMode;
use txs_value_data::{Callee, CellKind, Span};

/// The kind of a cell, and of an agent its error mode.
#[derive(Clone, Copy)]
pub struct CellSort {
    pub kind: CellKind,
    pub error_mode: ErrorMode,
}

/// What a cell's validator calls, and where it stands: the cell's definition, where it has none.
#[derive(Clone, Copy)]
pub struct Validation {
    pub callee: Option<Callee>,
    pub at: Span,
}

/// The options of a cell: its error mode, and the form of its validator.
#[derive(Clone, Copy)]
pub struct CellOptions<'a> {
    pub error_mode: Option<ErrorMode>,
    pub validator: Option<&'a Form>,
}

/// What a definition is of: of a constant, or of a cell of this sort that opens with it, and the form of the cell's validator.
#[derive(Clone, Copy)]
pub struct Opening<'a> {
    pub sort: Option<CellSort>,
    pub value: &'a Form,
    pub validator: Option<&'a Form>,
}

/// Whether there is no symbol and no list in the form.
#[cycle(is_literal)]
fn is_literal(form: &Form) -> bool
    ensures { result ≡ is_literal (tree form.now) }
{
    match form {
        Form::Symbol(_, _) => false,
        Form::Group(Bracket::Round, _, _) => false,
        Form::Group(Bracket::Square, forms, _) => are_literals(forms),
        _ => true,
    }
}

/// Whether there is none in any of the forms.
#[cycle(is_literal)]
fn are_literals(forms: &[Form]) -> bool
    ensures { result ≡ are_literals (trees_of (trees forms.now)) }
{
    for form in forms {
        if !is_literal(form) {
            return false;
        }
    }
    true
}

/// The form, where it is a literal.
fn only_literal<'a>(
    sort: Option<CellSort>,
    validator: Option<&'a Form>,
    value: &'a Form,
) -> Option<Opening<'a>>
    ensures { defining result ≡ only_literal sort (form_in validator.entry) (tree value.now) }
{
    if is_literal(value) {
        Some(Opening {
            sort,
            value,
            validator,
        })
    } else {
        None
    }
}

/// The kind of cell that a list makes, by the form at its head.
fn kind_at(head: &Form) -> Option<CellKind>
    ensures { result ≡ kind_at (form_at (tree head.now)) }
{
    match form_at(head)? {
        FormName::Ref => Some(CellKind::Ref),
        FormName::Atom => Some(CellKind::Atom),
        FormName::Agent => Some(CellKind::Agent),
        _ => None,
    }
}

/// The error mode of this keyword.
fn mode_of(form: &Form) -> Option<ErrorMode>
    ensures { result ≡ mode_of (tree form.now) }
{
    let Form::Keyword(name, _) = form else {
        return None;
    };
    if name.as_bytes() == b"fail".as_slice() {
        return Some(ErrorMode::Fail);
    }
    if name.as_bytes() == b"continue".as_slice() {
        return Some(ErrorMode::Continue);
    }
    None
}

/// Whether the form is the keyword `:error-mode`.
fn is_error_mode(form: &Form) -> bool
    ensures { result ≡ is_error_mode (tree form.now) }
{
    match form {
        Form::Keyword(name, _) => name.as_bytes() == b"error-mode".as_slice(),
        _ => false,
    }
}

/// Whether the form is the keyword `:validator`.
fn is_validator(form: &Form) -> bool
    ensures { result ≡ is_validator (tree form.now) }
{
    match form {
        Form::Keyword(name, _) => name.as_bytes() == b"validator".as_slice(),
        _ => false,
    }
}

/// The options with this error mode behind them: an agent has one, and no more.
fn with_mode<'a>(kind: CellKind, form: &Form, options: CellOptions<'a>) -> Option<CellOptions<'a>>
    ensures { options_in result ≡ with_mode kind (tree form.now) (options_as options.entry) }
{
    let CellKind::Agent = kind else {
        return None;
    };
    let None = options.error_mode else {
        return None;
    };
    let mode = mode_of(form)?;
    Some(CellOptions {
        error_mode: Some(mode),
        validator: options.validator,
    })
}

/// The options with this validator behind them: there is no more than one.
fn with_validator<'a>(form: &'a Form, options: CellOptions<'a>) -> Option<CellOptions<'a>>
    ensures { options_in result ≡ first_validator (form_in options.entry.validator) (tree form.now) options.entry.error_mode }
{
    match options.validator {
        Some(_) => None,
        None => Some(CellOptions {
            error_mode: options.error_mode,
            validator: Some(form),
        }),
    }
}

/// The options with this keyword and this form behind them.
fn with_option<'a>(
    kind: CellKind,
    key: &Form,
    form: &'a Form,
    options: CellOptions<'a>,
) -> Option<CellOptions<'a>>
    ensures { options_in result ≡ with_option kind (tree key.now) (tree form.now) (options_as options.entry) }
{
    if is_validator(key) {
        return with_validator(form, options);
    }
    if is_error_mode(key) {
        return with_mode(kind, form, options);
    }
    None
}

/// The options that stand behind the opening value of a cell.
fn options_behind(kind: CellKind, behind: &[Form]) -> Option<CellOptions<'_>>
    ensures { options_in result ≡ options_behind kind (trees_of (trees behind.now)) }
{
    let mut options = CellOptions {
        error_mode: None,
        validator: None,
    };
    let mut at = 0;
    while at + 1 < behind.len() {
        options = with_option(kind, &behind[at], &behind[at + 1], options)?;
        at += 2;
    }
    if at < behind.len() {
        return None;
    }
    Some(options)
}

/// The error mode, which is that an agent fails where none is given.
fn mode_or_fail(mode: Option<ErrorMode>) -> ErrorMode
    ensures { result ≡ mode_or_fail mode }
{
    match mode {
        None => ErrorMode::Fail,
        Some(mode) => mode,
    }
}

/// A cell of this kind and these options that opens with this literal.
fn opened<'a>(kind: CellKind, options: CellOptions<'a>, value: &'a Form) -> Option<Opening<'a>>
    ensures { defining result ≡ opened kind (Some (options_as options.entry)) (tree value.now) }
{
    let error_mode = mode_or_fail(options.error_mode);
    only_literal(
        Some(CellSort { kind, error_mode }),
        options.validator,
        value,
    )
}

/// A cell of this kind, with these parts.
fn cell_of(kind: CellKind, parts: &[Form]) -> Option<Opening<'_>>
    ensures { defining result ≡ cell_of (Some kind) (trees_of (trees parts.now)) }
{
    let (value, behind) = parts.split_first()?;
    let options = options_behind(kind, behind)?;
    opened(kind, options, value)
}

/// What a list with this head and these parts makes, if that is a cell.
fn cell_at<'f>(head: &Form, parts: &'f [Form]) -> Option<Opening<'f>>
    ensures { defining result ≡ cell_of (kind_at (form_at (tree head.now))) (trees_of (trees parts.now)) }
{
    match kind_at(head) {
        Some(kind) => cell_of(kind, parts),
        None => None,
    }
}

/// What a definition is of: a literal, or what makes a cell that opens with one.
pub fn defining_of(form: &Form) -> Option<Opening<'_>>
    ensures { defining result ≡ defining_of (tree form.now) }
{
    match form {
        Form::Group(Bracket::Round, forms, _) => {
            let (head, parts) = forms.split_first()?;
            cell_at(head, parts)
        }
        Form::Group(Bracket::Square, _, _) => only_literal(None, None, form),
        Form::Nil(_) => only_literal(None, None, form),
        Form::Truth(_, _) => only_literal(None, None, form),
        Form::Number(_, _) => only_literal(None, None, form),
        Form::Text(_, _) => only_literal(None, None, form),
        Form::Keyword(_, _) => only_literal(None, None, form),
        Form::Symbol(_, _) => only_literal(None, None, form),
    }
}
