//! Top-level forms: definitions, functions and threads.

ghost use Rattle.std.specs.Prelude.{◌≡◌, ◌<◌, ◌≤◌, [], ◌∷◌, ◌++◌, length, Some, None, OnOk, Ok, IfOk};
ghost use Rattle.txs_resolve.specs.Given.{GivesLocals, Leaves};
ghost use Rattle.txs_resolve_expand.specs.Parts.{seen};
ghost use Rattle.txs_resolve_expand.specs.Expansions.{body, form_at};
ghost use Rattle.txs_resolve.specs.Names.{nothing, entered, new_cell, new_name, named_form, define, untold, validator_named, validator_place, written, function, future, parameter, parameters, are_symbols, step, with_cell, with_constant, with_definition, with_function};
ghost use Rattle.txs_resolve_expand.specs.Expressions.{named};
ghost use Rattle.txs_resolve_expand.specs.declared.scope.Definition.TheVariants.{Function as AFunction};
ghost use Rattle.txs_resolve_expand.specs.Scope.{definition_of, with_locals};
ghost use Rattle.txs_resolve.specs.Scripts.{at_top, form_in, function_with, opened_as, state_of, IsScript, written_in, name_and_form};
ghost use Rattle.txs_reader.specs.declared.form.Bracket.TheVariants.{Round};
ghost use Rattle.txs_reader.specs.Tree.{tree, trees, trees_of, group};
ghost use Rattle.txs_tree_meaning.specs.Known.{known, levels};
ghost use Rattle.txs_tree_meaning.specs.Scoped.{ScopedTree, ScopedValidator};
ghost use Rattle.txs_tree_meaning.specs.View.{functions_of, threads_of, tree_of};
ghost use Rattle.txs_value_data.specs.Limits.{most_definitions, most_levels, most_parameters, most_threads};

use crate::definition::{CellSort, Opening, Validation, defining_of};
use crate::{Stop, body, fits, levels, literal, refused};
use std::alloc::{AllocError, Global};
use txs_reader::{Bracket, Form};
use txs_resolve_expand::{
    Definition, FormName, ResolveError, ResolveErrorKind, Scope, Spot, callee, form_at, is_symbol,
    may_bind, operation_of, refusal,
};
use txs_tree_meaning::{Function, Node, Thread};
use txs_value_cell::CellDefinition;
use txs_value_data::limits::{
    MOST_DEFINITIONS, MOST_DEPTH, MOST_LEVELS, MOST_PARAMETERS, MOST_THREADS,
};
use txs_value_data::{Callee, CellId, Name, Span, Value};

/// What a script has defined so far: names, cells, and where the validator of each stands, or its definition where it has none;
/// functions and threads, the levels of the functions by their numbers, and how often `def` stood.
#[derive(Drop)]
pub struct Script<'a> {
    pub scope: Scope<'a>,
    pub cells: Vec<CellDefinition>,
    pub validator_spans: Vec<Span>,
    pub functions: Vec<Function>,
    pub threads: Vec<Thread>,
    pub levels: Vec<u16>,
    pub defs: usize,
}

impl<'a> Script<'a> {
    /// Before the first form nothing is defined.
    pub fn new(alloc: Global) -> Script<'a>
        ensures state { state_of result ≡ nothing }
        ensures idle { IsScript result }
    {
        Script {
            scope: Scope::new(alloc),
            cells: Vec::new(alloc),
            validator_spans: Vec::new(alloc),
            functions: Vec::new(alloc),
            threads: Vec::new(alloc),
            levels: Vec::new(alloc),
            defs: 0,
        }
    }
}

/// A function as it is written: its name and where it is, its parameters and its body.
#[derive(Clone, Copy)]
pub struct Signature<'a> {
    pub name: &'a Name,
    pub at: Span,
    pub parameters: &'a [Form],
    pub body: &'a [Form],
}

/// The name, where it can be defined: then it isn't defined yet.
fn new_name<'a>(scope: &Scope<'_>, name: &'a Name, at: Span) -> Result<&'a Name, ResolveError>
    ensures name { seen (λ n. n.now) result ≡ new_name scope.now.defined name.now at }
    ensures new { IfOk result (λ n. definition_of n.now scope.now.defined ≡ None) }
{
    if !may_bind(name.as_bytes()) {
        return Err(refusal(ResolveErrorKind::BadForm, at));
    }
    if operation_of(name.as_bytes()).is_some() {
        return Err(refusal(ResolveErrorKind::Redefined, at));
    }
    if scope.definition(name).is_some() {
        return Err(refusal(ResolveErrorKind::Redefined, at));
    }
    Ok(name)
}

/// A constant is defined.
fn with_constant<'a>(script: &mut Script<'a>, name: &'a Name, value: Value) -> Result<(), Stop>
    requires script { IsScript script.old }
    requires new { definition_of name.now script.old.scope.defined ≡ None }
    requires room { script.old.defs < most_definitions }
    ensures state { Leaves result (state_of script.new) (Ok (with_constant (state_of script.old) name.now value)) }
    ensures next { OnOk result (IsScript script.new) }
{
    script.scope.define(name, Definition::Constant(value))?;
    script.defs += 1;
    Ok(())
}

/// What a validator calls, in the definition with this span: an operation or a function that is defined before.
fn validator_named(
    scope: &Scope<'_>,
    span: Span,
    validator: Option<&Form>,
) -> Result<Option<Callee>, ResolveError>
    requires outside { scope.now.locals ≡ [] }
    requires idle { scope.now.current ≡ None }
    ensures { result ≡ validator_named scope.now.defined span (form_in validator.entry) }
{
    match validator {
        None => Ok(None),
        Some(form) => {
            let spot = Spot {
                room: MOST_LEVELS + 1,
                span,
                wanted: true,
            };
            Ok(Some(callee(scope, spot, form)?))
        }
    }
}

/// Where a validator stands, or the definition with this span where there is none.
fn validator_place(span: Span, validator: Option<&Form>) -> Span
    ensures { result ≡ validator_place span (form_in validator.entry) }
{
    match validator {
        None => span,
        Some(form) => form.span(),
    }
}

/// A cell of this name and sort, which opens with this value and has this validator.
fn new_cell(
    name: &Name,
    sort: CellSort,
    opening: Value,
    validator: Option<Callee>,
) -> Result<CellDefinition, AllocError>
    ensures { IfOk result (λ c. c ≡ new_cell name.now sort opening validator) }
{
    Ok(CellDefinition {
        kind: sort.kind,
        name: name.share()?,
        opening,
        error_mode: sort.error_mode,
        validator,
    })
}

/// A cell is defined, which opens with this value.
fn with_cell<'a>(
    script: &mut Script<'a>,
    name: &'a Name,
    sort: CellSort,
    value: Value,
    validation: Validation,
) -> Result<(), Stop>
    requires script { IsScript script.old }
    requires new { definition_of name.now script.old.scope.defined ≡ None }
    requires room { script.old.defs < most_definitions }
    requires scoped { ScopedValidator (known (functions_of script.old.functions.items)) validation.callee }
    ensures state { Leaves result (state_of script.new) (Ok (with_cell (state_of script.old) name.now sort value validation)) }
    ensures next { OnOk result (IsScript script.new) }
{
    let kind = sort.kind;
    let number = script.cells.len() as u16;
    script
        .cells
        .push(new_cell(name, sort, value, validation.callee)?)?;
    script.validator_spans.push(validation.at)?;
    script
        .scope
        .define(name, Definition::Cell(CellId { kind, number }))?;
    script.defs += 1;
    Ok(())
}

/// A constant or a cell is defined.
fn with_definition<'a>(
    sort: Option<CellSort>,
    script: &mut Script<'a>,
    name: &'a Name,
    value: Value,
    validation: Validation,
) -> Result<(), Stop>
    requires script { IsScript script.old }
    requires new { definition_of name.now script.old.scope.defined ≡ None }
    requires room { script.old.defs < most_definitions }
    requires scoped { ScopedValidator (known (functions_of script.old.functions.items)) validation.callee }
    ensures state { Leaves result (state_of script.new) (Ok (with_definition sort (state_of script.old) name.now value validation)) }
    ensures next { OnOk result (IsScript script.new) }
{
    match sort {
        Some(sort) => with_cell(script, name, sort, value, validation),
        None => with_constant(script, name, value),
    }
}

/// The name and the form in `(def name form)` with these parts.
fn named_form(parts: &[Form]) -> Option<(&Name, Span, &Form)>
    ensures { name_and_form result ≡ named_form (trees_of (trees parts.now)) }
{
    let (first, behind) = parts.split_first()?;
    let Form::Symbol(name, at) = first else {
        return None;
    };
    if behind.len() != 1 {
        return None;
    }
    Some((name, *at, &behind[0]))
}

/// What the script has defined behind a `def` of this name, for which there is room.
fn enter<'a>(
    alloc: Global,
    script: &mut Script<'a>,
    name: &'a Name,
    at: Span,
    span: Span,
    opening: Opening<'_>,
) -> Result<(), Stop>
    requires script { IsScript script.old }
    requires room { script.old.defs < most_definitions }
    ensures state { Leaves result (state_of script.new) (entered (state_of script.old) name.now at span (opened_as opening.entry)) }
    ensures next { OnOk result (IsScript script.new) }
{
    // All three are looked at before memory is wanted.
    fits(usize::from(MOST_DEPTH), opening.value)?;
    let callee = validator_named(&script.scope, span, opening.validator)?;
    let name = new_name(&script.scope, name, at)?;
    let validation = Validation {
        callee,
        at: validator_place(span, opening.validator),
    };
    let value = literal(alloc, usize::from(MOST_DEPTH), opening.value)?;
    with_definition(opening.sort, script, name, value, validation)
}

/// What the script has defined behind a `def` with these parts.
fn define<'a>(
    alloc: Global,
    script: &mut Script<'a>,
    span: Span,
    parts: &'a [Form],
) -> Result<(), Stop>
    requires { IsScript script.old }
    ensures state { Leaves result (state_of script.new) (define (state_of script.old) span (trees_of (trees parts.now))) }
    ensures next { OnOk result (IsScript script.new) }
{
    let Some((name, at, what)) = named_form(parts) else {
        return Err(refused(ResolveErrorKind::BadForm, span));
    };
    let Some(opening) = defining_of(what) else {
        return Err(refused(ResolveErrorKind::BadForm, span));
    };
    if script.defs >= MOST_DEFINITIONS {
        return Err(refused(ResolveErrorKind::TooMany, span));
    }
    enter(alloc, script, name, at, span, opening)
}

/// The forms without a text in front of them.
fn untold(forms: &[Form]) -> &[Form]
    ensures { trees_of (trees result.now) ≡ untold (trees_of (trees forms.now)) }
{
    match forms.split_first() {
        Some((Form::Text(_, _), rest)) => rest,
        _ => forms,
    }
}

/// Whether all forms are symbols.
fn are_symbols(forms: &[Form]) -> bool
    ensures { result ≡ are_symbols (trees_of (trees forms.now)) }
{
    for form in forms {
        if !is_symbol(form) {
            return false;
        }
    }
    true
}

/// A function as it is written behind `defn`.
fn signature_of(parts: &[Form]) -> Option<Signature<'_>>
    ensures { written_in result ≡ written (trees_of (trees parts.now)) }
{
    let (first, behind) = parts.split_first()?;
    let Form::Symbol(name, at) = first else {
        return None;
    };
    let (second, body) = untold(behind).split_first()?;
    let Form::Group(Bracket::Square, parameters, _) = second else {
        return None;
    };
    if !are_symbols(parameters) {
        return None;
    }
    Some(Signature {
        name,
        at: *at,
        parameters,
        body,
    })
}

/// The name of a parameter after so many.
fn parameter(count: usize, form: &Form) -> Result<&Name, ResolveError>
    ensures name { seen (λ n. n.now) result ≡ parameter count (tree form.now) }
    ensures room { OnOk result (count < most_parameters) }
{
    match form {
        Form::Symbol(name, at) => {
            if !may_bind(name.as_bytes()) {
                return Err(refusal(ResolveErrorKind::BadForm, *at));
            }
            if count >= MOST_PARAMETERS {
                return Err(refusal(ResolveErrorKind::TooMany, *at));
            }
            Ok(name)
        }
        _ => Err(refusal(ResolveErrorKind::BadForm, form.span())),
    }
}

/// Binds the parameters.
fn bind_parameters<'a>(scope: &mut Scope<'a>, forms: &'a [Form]) -> Result<(), ResolveError>
    requires { scope.old.locals ≡ [] }
    ensures names { GivesLocals result scope.new.locals (parameters [] (trees_of (trees forms.now))) }
    ensures kept { OnOk result (scope.new ≡ with_locals scope.new.locals scope.old) }
    ensures few { OnOk result (length scope.new.locals ≤ most_parameters) }
{
    for form in forms {
        let name = parameter(scope.len(), form)?;
        scope.push(name.as_bytes());
    }
    Ok(())
}

/// The name of the function of this number is defined, and its levels are behind those of the functions before it.
fn name_function<'a>(
    scope: &mut Scope<'a>,
    levels: &mut Vec<u16>,
    name: &'a Name,
    number: u16,
    depth: u16,
) -> Result<(), AllocError>
    requires { definition_of name.now scope.old.defined ≡ None }
    ensures named { OnOk result (scope.new ≡ record { locals = scope.old.locals; defined = scope.old.defined ++ (record { name = name.now; what = AFunction number depth }) ∷ []; current = scope.old.current }) }
    ensures counted { OnOk result (levels.new.items ≡ levels.old.items ++ depth ∷ []) }
{
    levels.push(depth)?;
    scope.define(name, Definition::Function(number, depth))?;
    Ok(())
}

/// A function is defined, of so many parameters and with this body.
fn with_function<'a>(
    script: &mut Script<'a>,
    name: &'a Name,
    parameters: u8,
    body: Node,
    span: Span,
) -> Result<(), Stop>
    requires script { IsScript script.old }
    requires new { definition_of name.now script.old.scope.defined ≡ None }
    requires room { length script.old.functions.items < most_definitions }
    requires few { parameters ≤ most_parameters }
    requires scoped { ScopedTree (known (functions_of script.old.functions.items)) parameters (tree_of body) }
    requires levels { levels (known (functions_of script.old.functions.items)) (tree_of body) ≤ most_levels }
    ensures state { Leaves result (state_of script.new) (Ok (with_function (state_of script.old) name.now parameters (tree_of body) span)) }
    ensures next { OnOk result (IsScript script.new) }
{
    let number = script.functions.len() as u16;
    let depth = levels(script.levels.as_slice(), &body) as u16;
    script.functions.push(Function {
        parameters,
        body,
        span,
    })?;
    name_function(&mut script.scope, &mut script.levels, name, number, depth)?;
    Ok(())
}

/// What the script has defined behind a function of this name, whose parameters are the locals in scope.
fn named_function<'a>(
    alloc: Global,
    script: &mut Script<'a>,
    name: &'a Name,
    span: Span,
    forms: &'a [Form],
) -> Result<(), Stop>
    requires script { IsScript (at_top script.old) }
    requires new { definition_of name.now script.old.scope.defined ≡ None }
    requires room { length script.old.functions.items < most_definitions }
    requires few { length script.old.scope.locals ≤ most_parameters }
    ensures state { Leaves result (state_of script.new) (function_with script.old.scope.locals (state_of script.old) name.now span (trees_of (trees forms.now))) }
    ensures next { OnOk result (IsScript script.new) }
{
    let parameters = script.scope.len() as u8;
    script.scope.begin(name);
    let spot = Spot {
        room: MOST_LEVELS,
        span,
        wanted: true,
    };
    let body = body(alloc, &mut script.scope, spot, forms)?;
    script.scope.end();
    with_function(script, name, parameters, body, span)
}

/// What the script has defined behind a function as it is written.
fn function_as<'a>(
    alloc: Global,
    script: &mut Script<'a>,
    span: Span,
    written: Signature<'a>,
) -> Result<(), Stop>
    requires { IsScript script.old }
    ensures state { Leaves result (state_of script.new) (function (state_of script.old) span (written_in (Some written.entry))) }
    ensures next { OnOk result (IsScript script.new) }
{
    if script.functions.len() >= MOST_DEFINITIONS {
        return Err(refused(ResolveErrorKind::TooMany, span));
    }
    let name = new_name(&script.scope, written.name, written.at)?;
    bind_parameters(&mut script.scope, written.parameters)?;
    named_function(alloc, script, name, span, written.body)
}

/// What the script has defined behind a `defn` with these parts.
fn function<'a>(
    alloc: Global,
    script: &mut Script<'a>,
    span: Span,
    parts: &'a [Form],
) -> Result<(), Stop>
    requires { IsScript script.old }
    ensures state { Leaves result (state_of script.new) (function (state_of script.old) span (written (trees_of (trees parts.now)))) }
    ensures next { OnOk result (IsScript script.new) }
{
    match signature_of(parts) {
        Some(written) => function_as(alloc, script, span, written),
        None => Err(refused(ResolveErrorKind::BadForm, span)),
    }
}

/// What the script has defined behind a `future` with this body.
fn future<'a>(
    alloc: Global,
    script: &mut Script<'a>,
    span: Span,
    forms: &'a [Form],
) -> Result<(), Stop>
    requires { IsScript script.old }
    ensures state { Leaves result (state_of script.new) (future (state_of script.old) span (trees_of (trees forms.now))) }
    ensures next { OnOk result (IsScript script.new) }
{
    if script.threads.len() >= MOST_THREADS {
        return Err(refused(ResolveErrorKind::TooMany, span));
    }
    let spot = Spot {
        room: MOST_LEVELS,
        span,
        wanted: false,
    };
    let body = body(alloc, &mut script.scope, spot, forms)?;
    script.threads.push(Thread { body, span })?;
    Ok(())
}

/// What the script has defined behind a list at the top level.
fn list_step<'a>(
    alloc: Global,
    script: &mut Script<'a>,
    span: Span,
    forms: &'a [Form],
) -> Result<(), Stop>
    requires { IsScript script.old }
    ensures state { Leaves result (state_of script.new) (step (state_of script.old) (group Round (trees_of (trees forms.now)) span)) }
    ensures next { OnOk result (IsScript script.new) }
{
    let Some((head, parts)) = forms.split_first() else {
        return Err(refused(ResolveErrorKind::BadForm, span));
    };
    match form_at(head) {
        Some(FormName::Def) => define(alloc, script, span, parts),
        Some(FormName::Defn) => function(alloc, script, span, parts),
        Some(FormName::Future) => future(alloc, script, span, parts),
        _ => Err(refused(ResolveErrorKind::BadForm, span)),
    }
}

/// What the script has defined behind a top-level form.
pub fn step<'a>(alloc: Global, script: &mut Script<'a>, form: &'a Form) -> Result<(), Stop>
    requires { IsScript script.old }
    ensures state { Leaves result (state_of script.new) (step (state_of script.old) (tree form.now)) }
    ensures next { OnOk result (IsScript script.new) }
{
    match form {
        Form::Group(Bracket::Round, forms, span) => list_step(alloc, script, *span, forms),
        Form::Group(Bracket::Square, _, span) => Err(refused(ResolveErrorKind::BadForm, *span)),
        Form::Nil(span) => Err(refused(ResolveErrorKind::BadForm, *span)),
        Form::Truth(_, span) => Err(refused(ResolveErrorKind::BadForm, *span)),
        Form::Number(_, span) => Err(refused(ResolveErrorKind::BadForm, *span)),
        Form::Text(_, span) => Err(refused(ResolveErrorKind::BadForm, *span)),
        Form::Keyword(_, span) => Err(refused(ResolveErrorKind::BadForm, *span)),
        Form::Symbol(_, span) => Err(refused(ResolveErrorKind::BadForm, *span)),
    }
}
