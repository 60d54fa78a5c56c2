//! Laws of the resolution of names. Each is the contract of a function that does nothing when it runs.

ghost use Rattle.std.specs.Prelude.{◌≡◌, ◌≢◌, ◌⊎◌, ℕ, suc, Bool, true, false, List, map, None, Ok, Some};
ghost use Rattle.txs_resolve_expand.specs.Nearest.{IsNearest, NoneNamed};
ghost use Rattle.txs_value_data.specs.Places.{with_name};
ghost use Rattle.txs_resolve_expand.specs.Scope.{Scope, definition_of, is_current, may_bind};
ghost use Rattle.txs_resolve_expand.specs.declared.scope.Definition.TheVariants.{Constant, Cell as ACell};
ghost use Rattle.txs_reader.specs.Tree.{PlainForm as Form, leaf, symbol};
ghost use Rattle.txs_tree_meaning.specs.Marked.{Exactly, ProgramMarkedBy};
ghost use Rattle.txs_tree_meaning.specs.Scoped.{Scoped};
ghost use Rattle.txs_tree_meaning.specs.Tree.{Const, Local, PlainFunction, PlainProgram, PlainThread};
ghost use Rattle.txs_tree_meaning.specs.View.{mark_of};
ghost use Rattle.txs_value_data.specs.Operations.{op_name, operations};
ghost use Rattle.txs_value_data.specs.declared.fault.Span.{Span};
ghost use Rattle.txs_value_data.specs.declared.value.CellId.{CellId};
ghost use Rattle.txs_value_data.specs.declared.value.Value.{Value};
ghost use Rattle.txs_value_data.specs.declared.value.Value.TheVariants.{Cell};
ghost use Rattle.txs_resolve_expand.specs.Answers.{refuse};
ghost use Rattle.txs_resolve.specs.Defined.{AllDiffer, define_all, unvalidated};
ghost use Rattle.txs_resolve_expand.specs.Namespace.{behind_namespace};
ghost use Rattle.txs_resolve.specs.Names.{Resolves, ResolveStops};
ghost use Rattle.txs_resolve_expand.specs.Expressions.{named};
ghost use Rattle.txs_resolve_expand.specs.declared.error.ResolveError.{ResolveError};
ghost use Rattle.txs_resolve_expand.specs.declared.error.ResolveErrorKind.TheVariants.{Memory, UnknownName};

/// The program that forms are is scoped: each local and function that it names is there, and the limits are kept.
pub fn resolved_is_scoped()
    ensures { (forms : List Form) (p : PlainProgram) → Resolves forms p → Scoped p }
{}

/// The marks of the program that forms are say exactly which results are used: that of a function's body is, that of a
/// future's body isn't, and of the items of a `do` only the last one's may be.
pub fn resolved_is_marked()
    ensures { (forms : List Form) (p : PlainProgram) → Resolves forms p → ProgramMarkedBy Exactly p }
{}

/// Forms are one program, or they are refused for one reason at one place, which is no running out of memory.
pub fn one_answer()
    ensures decided { (forms : List Form) → ((p : PlainProgram) × Resolves forms p) ⊎ ((e : ResolveError) × ResolveStops forms e) }
    ensures one_program { (forms : List Form) (p q : PlainProgram) → Resolves forms p → Resolves forms q → p ≡ q }
    ensures one_stop { (forms : List Form) (d e : ResolveError) → ResolveStops forms d → ResolveStops forms e → d ≡ e }
    ensures not_both { (forms : List Form) (p : PlainProgram) (e : ResolveError) → Resolves forms p → ResolveStops forms e → ⊥ }
    ensures no_want { (forms : List Form) (e : ResolveError) → ResolveStops forms e → e.kind ≢ Memory }
{}

/// The cells of the program are those that the script's forms define, but for what their validators call, and these stand where the forms
/// have them. The functions and threads stand where the forms do, each in script order. No name is defined twice.
pub fn defined_in_order()
    ensures cells { (forms : List Form) (p : PlainProgram) → Resolves forms p → map unvalidated p.cells ≡ (define_all (behind_namespace forms)).cells }
    ensures validators { (forms : List Form) (p : PlainProgram) → Resolves forms p → p.validator_spans ≡ (define_all (behind_namespace forms)).validator_spans }
    ensures functions { (forms : List Form) (p : PlainProgram) → Resolves forms p → map (λ (f : PlainFunction). f.span) p.functions ≡ (define_all (behind_namespace forms)).functions }
    ensures threads { (forms : List Form) (p : PlainProgram) → Resolves forms p → map (λ (x : PlainThread). x.span) p.threads ≡ (define_all (behind_namespace forms)).threads }
    ensures once { (forms : List Form) (p : PlainProgram) → Resolves forms p → AllDiffer (define_all (behind_namespace forms)).names }
{}

/// A symbol in an expression, with a name that a local may have, is the nearest enclosing local of that name,
/// else the constant or cell that it was defined as before; where it is no operation either, it is unknown.
pub fn symbols()
    ensures local { (name : List ℕ) (scope : Scope) → may_bind name ≡ true → (room : ℕ) (wanted : Bool) (at : Span) (i : ℕ) → IsNearest name i scope
        → named (suc room) scope wanted (leaf (symbol name) at) ≡ Ok (Local i (mark_of at wanted)) }
    ensures constant { (name : List ℕ) (scope : Scope) → may_bind name ≡ true → (room : ℕ) (wanted : Bool) (at : Span) (v : Value) → NoneNamed name scope.locals
        → is_current name scope.current ≡ false → definition_of name scope.defined ≡ Some (Constant v) → named (suc room) scope wanted (leaf (symbol name) at) ≡ Ok (Const v (mark_of at wanted)) }
    ensures cell { (name : List ℕ) (scope : Scope) → may_bind name ≡ true → (room : ℕ) (wanted : Bool) (at : Span) (c : CellId) → NoneNamed name scope.locals
        → is_current name scope.current ≡ false → definition_of name scope.defined ≡ Some (ACell c) → named (suc room) scope wanted (leaf (symbol name) at) ≡ Ok (Const (Cell c) (mark_of at wanted)) }
    ensures unknown { (name : List ℕ) (scope : Scope) → may_bind name ≡ true → (room : ℕ) (wanted : Bool) (at : Span) → NoneNamed name scope.locals
        → is_current name scope.current ≡ false → definition_of name scope.defined ≡ None → with_name op_name name operations ≡ None
        → named (suc room) scope wanted (leaf (symbol name) at) ≡ refuse UnknownName at }
{}
