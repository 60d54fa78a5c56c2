//! Laws of scripts, told of the text, the program and its meaning together.

ghost use Rattle.std.specs.Prelude.{◌≡◌, ◌≢◌, ◌≤◌, ◌<◌, ◌∷◌, [], ◌++◌, ◌+◌, suc, ℕ, Bool, true, false, List, Some, None, Ok, Err, Option, length, if◌then◌else◌};
ghost use Rattle.txs_check.specs.Faulty.{FaultIn, FaultOfValidator, IsBody};
ghost use Rattle.txs_check.specs.Order.{Ascend};
ghost use Rattle.txs_check.specs.Refused.{Body, CheckStops, in_order, validators_in};
ghost use Rattle.txs_check.specs.declared.error.CheckError.{CheckError};
ghost use Rattle.txs_resolve_expand.specs.Nearest.{NoneNamed};
ghost use Rattle.txs_value_data.specs.Places.{with_name};
ghost use Rattle.txs_resolve_expand.specs.Scope.{Entry, Scope, a_local, defined_as, operation, unknown, definition_of, is_current, may_bind, meaning, with_local};
ghost use Rattle.txs_resolve_expand.specs.declared.names.FormName.TheVariants.{And, Let, Loop, Or};
ghost use Rattle.txs_resolve_expand.specs.declared.scope.Definition.{Definition};
ghost use Rattle.txs_resolve_expand.specs.declared.scope.Definition.TheVariants.{Function as AFunction};
ghost use Rattle.txs_resolve_expand.specs.Answers.{refuse};
ghost use Rattle.txs_resolve_expand.specs.declared.error.ResolveErrorKind.TheVariants.{UnknownName};
ghost use Rattle.txs_reader.specs.Script.{Reads};
ghost use Rattle.txs_reader.specs.Tree.{PlainForm as Form, PlainForms as Forms, first, leaf, place, symbol, trees_of};
ghost use Rattle.txs_reader.specs.Tree.{none as no_forms};
ghost use Rattle.txs_resolve_expand.specs.Expansions.{body, list};
ghost use Rattle.txs_resolve_expand.specs.Expressions.{are_pairs, named};
ghost use Rattle.txs_resolve.specs.Names.{State, nothing, step, steps, validator_named, Resolves, ResolveStops};
ghost use Rattle.txs_resolve_expand.specs.declared.error.ResolveError.{ResolveError};
ghost use Rattle.txs_tree_meaning.specs.Known.{known, levels};
ghost use Rattle.txs_tree_meaning.specs.Meaning.{Completion, Effects, eval};
ghost use Rattle.txs_tree_meaning.specs.Tree.{Tree, Const, PlainProgram};
ghost use Rattle.txs_tree_meaning.specs.View.{mark_of};
ghost use Rattle.txs_value_data.specs.Limits.{most_levels, most_locals};
ghost use Rattle.txs_value_data.specs.Operations.{op_name, operations};
ghost use Rattle.txs_value_data.specs.declared.fault.Span.{Span};
ghost use Rattle.txs_value_data.specs.declared.op.Callee.TheVariants.{Core as CoreOp, Function as TheFunction};
ghost use Rattle.txs_value_data.specs.declared.op.Op.{Op};
ghost use Rattle.txs_value_data.specs.declared.value.Value.{Value};
ghost use Rattle.txs_value_data.specs.declared.value.Value.TheVariants.{Nil, Truth};
ghost use Rattle.txs_theorem_language.specs.Faults.{FaultAtTop, FaultInForm, FaultInScript};
ghost use Rattle.txs_theorem_language.specs.FirstForm.{StopsAt};
ghost use Rattle.txs_theorem_language.specs.Levels.{IfGives, Limited, ScopeBehind};
ghost use Rattle.txs_theorem_language.specs.Logic.{AndDoes, OrDoes, and_tree, or_tree};
ghost use Rattle.txs_theorem_language.specs.Renaming.{About, AllLack, MayRename, all_renamed, binding_form, binds, function_form, has_parameter, joined, pairs_renamed};
ghost use Rattle.txs_theorem_language.specs.Standing.{HasTree, StandsIn};
ghost use Rattle.txs_theorem_language.specs.TextOrder.{NestIn, Nests};

/// The forms of a text are in it one behind the other, and so are the parts of each form inside it.
pub fn forms_stand_in_order()
    ensures { (bytes : List ℕ) (forms : List Form) → Reads bytes forms → NestIn 0 (length bytes) (trees_of forms) }
{}

/// The bodies of what is read and resolved begin one behind the other, in the order in which they are checked.
pub fn bodies_stand_in_order()
    ensures { (bytes : List ℕ) (forms : List Form) (p : PlainProgram) → Reads bytes forms → Resolves forms p → Ascend (in_order p.functions p.threads) }
{}

/// The resolution of names stops at the first form that is refused: those before it are resolved, and what is behind it is of no account.
pub fn names_refuse_the_first_form()
    ensures { (forms : List Form) (e : ResolveError) → ResolveStops forms e → StopsAt forms e }
{}

/// What ends before the place of a refusal was resolved, in its scope and with its levels: so no fault is in it. Of a written form,
/// whose parts are in order, and of the body of a function or of a future.
pub fn what_ends_before_a_refusal_is_resolved()
    ensures written { (room k : ℕ) (scope outer : Scope) (wanted : Bool) (part form : Form) (e : ResolveError) → Nests form → named k outer wanted form ≡ Err e
        → StandsIn room scope part k outer form → (place part).to ≤ e.at.from → HasTree room scope part }
    ensures bodies { (room k : ℕ) (scope outer : Scope) (wanted : Bool) (part : Form) (at : Span) (from : ℕ) (forms : Forms) (e : ResolveError) → at.from < from → NestIn from at.to forms
        → named k outer wanted (body forms at) ≡ Err e → StandsIn room scope part k outer (body forms at) → (place part).to ≤ e.at.from → HasTree room scope part }
{}

/// A refusal of names is of a form that has the fault: its kind is that of the fault, and its place that of what is wrong in the form.
/// So of any form, and of a script, whose first refused form has the fault, or a form in the body that it defines.
pub fn a_refusal_is_of_a_form_with_that_fault()
    ensures in_form { (k : ℕ) (outer : Scope) (wanted : Bool) (form : Form) (e : ResolveError) → named k outer wanted form ≡ Err e → FaultInForm k outer form e }
    ensures in_script { (forms : List Form) (e : ResolveError) → ResolveStops forms e → FaultInScript forms e }
{}

/// What has a fault is refused, be it a form in which one has a fault, or one of the top level. So the refused are exactly those with a fault.
pub fn what_has_a_fault_is_refused()
    ensures in_form { (k : ℕ) (outer : Scope) (wanted : Bool) (form : Form) (e : ResolveError) → FaultInForm k outer form e → (t : Tree) → named k outer wanted form ≢ Ok t }
    ensures at_top { (s : State) (form : Form) (e : ResolveError) → FaultAtTop s e form → (t : State) → step s form ≢ Ok t }
{}

/// No fault is before a refusal of names: in what ends before its place no form has one. Of a written form, whose parts are in order,
/// and of the body of a function or of a future; and of a script's forms none has one that is before the first that is refused.
pub fn no_fault_stands_before_a_refusal()
    ensures written { (room k : ℕ) (scope outer : Scope) (wanted : Bool) (part form : Form) (e : ResolveError) → Nests form → named k outer wanted form ≡ Err e
        → StandsIn room scope part k outer form → (place part).to ≤ e.at.from → (d : ResolveError) → FaultInForm room scope part d → ⊥ }
    ensures bodies { (room k : ℕ) (scope outer : Scope) (wanted : Bool) (part : Form) (at : Span) (from : ℕ) (forms : Forms) (e : ResolveError) → at.from < from → NestIn from at.to forms
        → named k outer wanted (body forms at) ≡ Err e → StandsIn room scope part k outer (body forms at) → (place part).to ≤ e.at.from → (d : ResolveError) → FaultInForm room scope part d → ⊥ }
    ensures script { (forms : List Form) (e : ResolveError) (stop : StopsAt forms e) (before behind : List Form) (form : Form) (s : State) → stop.before ≡ before ++ form ∷ behind → steps nothing before ≡ Ok s
        → (d : ResolveError) → FaultAtTop s d form → ⊥ }
{}

/// The refusal of a script's program is the first in its text: no form with a fault begins before it, and no validator with one.
pub fn checks_refuse_the_first()
    ensures bodies { (bytes : List ℕ) (forms : List Form) (p : PlainProgram) (e : CheckError) → Reads bytes forms → Resolves forms p → CheckStops p e
        → (b : Body) → IsBody b (in_order p.functions p.threads) → (d : CheckError) → FaultIn (known p.functions) b.zone b.target b.tree d → e.at.from ≤ d.at.from }
    ensures validators { (bytes : List ℕ) (forms : List Form) (p : PlainProgram) (e : CheckError) → Reads bytes forms → Resolves forms p → CheckStops p e
        → (d : CheckError) → FaultOfValidator (known p.functions) (validators_in p.cells p.validator_spans) d → e.at.from ≤ d.at.from }
{}

/// Behind a binding the name means the new local, and every other name what it meant; so no name of a script means a hidden local.
pub fn a_binding_hides_its_name()
    ensures bound { (name : List ℕ) (scope : Scope) → may_bind name ≡ true → meaning name (with_local name scope) ≡ a_local (length scope.locals) }
    ensures others { (name other : List ℕ) (scope : Scope) → other ≢ name → meaning other (with_local name scope) ≡ meaning other scope }
{}

/// Which name a local has is of no account: with a name in its place that is nowhere where it is seen, a `let`, a `loop` or a function
/// has the same tree, with the same spans, or is refused for the same reason at the same form.
pub fn a_local_may_be_renamed()
    ensures in_let { (old new : List ℕ) → MayRename old new → (room : ℕ) (scope : Scope) (wanted : Bool) (before : Forms) (here : Span) (e : Form) (behind : Forms) (there : Span) (forms : Forms) (at : Span)
        → are_pairs before ≡ true → AllLack new behind → AllLack new forms
        → named room scope wanted (binding_form Let (joined before (first (leaf (symbol new) here) (first e (pairs_renamed old new behind)))) there (if binds old behind then forms else all_renamed old new forms) at)
        ≡ named room scope wanted (binding_form Let (joined before (first (leaf (symbol old) here) (first e behind))) there forms at) }
    ensures in_loop { (old new : List ℕ) → MayRename old new → (room : ℕ) (scope : Scope) (wanted : Bool) (before : Forms) (here : Span) (e : Form) (behind : Forms) (there : Span) (forms : Forms) (at : Span)
        → are_pairs before ≡ true → AllLack new behind → AllLack new forms
        → named room scope wanted (binding_form Loop (joined before (first (leaf (symbol new) here) (first e (pairs_renamed old new behind)))) there (if binds old behind then forms else all_renamed old new forms) at)
        ≡ named room scope wanted (binding_form Loop (joined before (first (leaf (symbol old) here) (first e behind))) there forms at) }
    ensures parameter { (old new : List ℕ) → MayRename old new → (s : State) (name : List ℕ) (named_at : Span) (about : Option About) (before : Forms) (here : Span) (behind : Forms) (there : Span) (forms : Forms) (at : Span)
        → AllLack new behind → AllLack new forms
        → step s (function_form name named_at about (joined before (first (leaf (symbol new) here) behind)) there (if has_parameter old behind then forms else all_renamed old new forms) at)
        ≡ step s (function_form name named_at about (joined before (first (leaf (symbol old) here) behind)) there forms at) }
{}

/// A name that no local has, and not the function that is being defined, means its definition, else a core operation, else nothing.
pub fn names_without_locals()
    ensures definition { (name : List ℕ) (scope : Scope) → may_bind name ≡ true → NoneNamed name scope.locals → is_current name scope.current ≡ false
        → (d : Definition) → definition_of name scope.defined ≡ Some d → meaning name scope ≡ defined_as d }
    ensures operation { (name : List ℕ) (scope : Scope) → may_bind name ≡ true → NoneNamed name scope.locals → is_current name scope.current ≡ false
        → (op : Op) → definition_of name scope.defined ≡ None → with_name op_name name operations ≡ Some op → meaning name scope ≡ operation op }
    ensures nothing { (name : List ℕ) (scope : Scope) → may_bind name ≡ true → NoneNamed name scope.locals → is_current name scope.current ≡ false
        → definition_of name scope.defined ≡ None → with_name op_name name operations ≡ None → meaning name scope ≡ unknown }
{}

/// The validator of a cell is the function or the core operation of its name, by what the forms before the cell define: so its own name isn't
/// defined there. Where neither has the name, it is unknown.
pub fn a_validator_is_what_stands_before()
    ensures function { (es : List Entry) (span : Span) (name : List ℕ) (at : Span) → may_bind name ≡ true → (n levels : ℕ) → definition_of name es ≡ Some (AFunction n levels) → levels ≤ most_levels
        → validator_named es span (Some (leaf (symbol name) at)) ≡ Ok (Some (TheFunction n)) }
    ensures operation { (es : List Entry) (span : Span) (name : List ℕ) (at : Span) → may_bind name ≡ true → (op : Op) → definition_of name es ≡ None → with_name op_name name operations ≡ Some op
        → validator_named es span (Some (leaf (symbol name) at)) ≡ Ok (Some (CoreOp op)) }
    ensures nothing { (es : List Entry) (span : Span) (name : List ℕ) (at : Span) → may_bind name ≡ true → definition_of name es ≡ None → with_name op_name name operations ≡ None
        → validator_named es span (Some (leaf (symbol name) at)) ≡ refuse UnknownName at }
{}

/// A form that has a tree where it may have so many levels has the same tree where it may have one more: the limit refuses, and changes nothing.
pub fn one_level_more_changes_no_tree()
    ensures { (room : ℕ) (scope : Scope) (wanted : Bool) (form : Form) (t : Tree) → named room scope wanted form ≡ Ok t → named (suc room) scope wanted form ≡ Ok t }
{}

/// The limit of levels refuses what is too deep, and changes nothing else. Where a form may have so many levels its answer is the one that
/// it has with any more of them, be that a tree or a refusal; or it is too much, and the tree that it has with more, if it has one, is
/// deeper. A tree is never deeper than so many levels. A called function counts with its levels. The scope is any behind forms of a
/// script: what these define is defined in it.
pub fn the_limit_of_levels_refuses_what_is_deeper()
    ensures refuses { (forms : List Form) (s : State) (scope : Scope) → ScopeBehind forms s scope → (room further : ℕ) (wanted : Bool) (form : Form)
        → Limited Tree (λ t. room < levels (known s.functions) t) (named (room + further) scope wanted form) (named room scope wanted form) }
    ensures fits { (forms : List Form) (s : State) (scope : Scope) → ScopeBehind forms s scope → (room : ℕ) (wanted : Bool) (form : Form)
        → IfGives (λ t. levels (known s.functions) t ≤ room) (named room scope wanted form) }
{}

/// `(and)` is true, `(or)` is nil, and `(and e)` and `(or e)` are e.
pub fn short_logic()
    ensures and_none { (room : ℕ) (scope : Scope) (wanted : Bool) (at : Span) → named (suc room) scope wanted (list And no_forms at) ≡ Ok (Const (Truth true) (mark_of at wanted)) }
    ensures or_none { (room : ℕ) (scope : Scope) (wanted : Bool) (at : Span) → named (suc room) scope wanted (list Or no_forms at) ≡ Ok (Const Nil (mark_of at wanted)) }
    ensures and_one { (room : ℕ) (scope : Scope) (wanted : Bool) (e : Form) (at : Span) → named room scope wanted (list And (first e no_forms) at) ≡ named room scope wanted e }
    ensures or_one { (room : ℕ) (scope : Scope) (wanted : Bool) (e : Form) (at : Span) → named room scope wanted (list Or (first e no_forms) at) ≡ named room scope wanted e }
{}

/// `(and e f ..)` and `(or e f ..)` are choices by the value of e, which the rest sees in a local that no name of a script means.
pub fn longer_logic()
    ensures and_is { (room : ℕ) (scope : Scope) (wanted : Bool) (at : Span) (e f : Form) (rest : Forms) (x y : Tree) → length scope.locals < most_locals
        → named (suc (suc room)) scope true e ≡ Ok x → named (suc room) (with_local [] scope) wanted (list And (first f rest) at) ≡ Ok y
        → named (suc (suc (suc room))) scope wanted (list And (first e (first f rest)) at) ≡ Ok (and_tree (length scope.locals) x y at wanted) }
    ensures or_is { (room : ℕ) (scope : Scope) (wanted : Bool) (at : Span) (e f : Form) (rest : Forms) (x y : Tree) → length scope.locals < most_locals
        → named (suc (suc room)) scope true e ≡ Ok x → named (suc room) (with_local [] scope) wanted (list Or (first f rest) at) ≡ Ok y
        → named (suc (suc (suc room))) scope wanted (list Or (first e (first f rest)) at) ≡ Ok (or_tree (length scope.locals) x y at wanted) }
{}

/// Of such a choice, whatever effects its parts have: `(and x y ..)` is x's value where that is nil or false, else what `(and y ..)` is, and
/// `(or x y ..)` is x's value where that is neither, else what `(or y ..)` is. x is evaluated once.
pub fn logic_does<S>()
    ensures and_does { AndDoes S }
    ensures or_does { OrDoes S }
{}
