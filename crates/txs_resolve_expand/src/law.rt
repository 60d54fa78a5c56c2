//! Laws of names in scope. Each is the contract of a function that does nothing when it runs.

ghost use Rattle.std.specs.Prelude.{◌≡◌, ℕ, List, Some, None};
ghost use Rattle.txs_resolve_expand.specs.Nearest.{IsNearest, NoneNamed};
ghost use Rattle.txs_resolve_expand.specs.Scope.{Scope, local_number};

/// A name stands for the nearest local that has it, and for no local exactly where none has it.
pub fn nearest_local()
    ensures found { (name : List ℕ) (scope : Scope) (i : ℕ) → local_number name scope ≡ Some i → IsNearest name i scope }
    ensures alone { (name : List ℕ) (scope : Scope) (i : ℕ) → IsNearest name i scope → local_number name scope ≡ Some i }
    ensures missing { (name : List ℕ) (scope : Scope) → local_number name scope ≡ None → NoneNamed name scope.locals }
    ensures nowhere { (name : List ℕ) (scope : Scope) → NoneNamed name scope.locals → local_number name scope ≡ None }
{}
