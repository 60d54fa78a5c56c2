//! Laws of the checks. Each is the contract of a function that does nothing when it runs.

ghost use Rattle.std.specs.Prelude.{◌≡◌, ◌≢◌, ◌⊎◌, ◌↔◌, List, map};
ghost use Rattle.txs_tree_meaning.specs.Scoped.{Scoped};
ghost use Rattle.txs_tree_meaning.specs.Sound.{Sound};
ghost use Rattle.txs_tree_meaning.specs.Tree.{PlainFunction, PlainProgram, PlainThread};
ghost use Rattle.txs_check.specs.Faulty.{IsTrueOf};
ghost use Rattle.txs_check.specs.Order.{Ascend, EachAscends, bodies_in, functions_in, futures_in, only_validators};
ghost use Rattle.txs_check.specs.Refused.{Body, CheckStops, Validator, fine, function_body, in_order, of_validator, refusal, thread_body, together};
ghost use Rattle.txs_check.specs.declared.error.CheckError.{CheckError};
ghost use Rattle.txs_check.specs.declared.error.CheckErrorKind.TheVariants.{Memory};

/// A program whose names are resolved is sound exactly where nothing of it is refused.
pub fn sound_where_nothing_refuses()
    ensures { (p : PlainProgram) → Scoped p → (refusal p ≡ fine ↔ Sound p) }
{}

/// A program whose names are resolved is sound, or it is refused for one reason at one place.
pub fn one_answer()
    ensures decided { (p : PlainProgram) → Scoped p → Sound p ⊎ ((e : CheckError) × CheckStops p e) }
    ensures one_stop { (p : PlainProgram) (d e : CheckError) → CheckStops p d → CheckStops p e → d ≡ e }
    ensures not_both { (p : PlainProgram) (e : CheckError) → Scoped p → Sound p → CheckStops p e → ⊥ }
    ensures no_want { (p : PlainProgram) (e : CheckError) → CheckStops p e → e.kind ≢ Memory }
{}

/// The bodies that are walked are those of all functions and of all futures, each in their order; and where
/// each of the two are in script order, so are all together.
pub fn bodies_in_script_order()
    ensures functions { (fs : List PlainFunction) (ts : List PlainThread) → functions_in (in_order fs ts) ≡ map function_body fs }
    ensures futures { (fs : List PlainFunction) (ts : List PlainThread) → futures_in (in_order fs ts) ≡ map thread_body ts }
    ensures ascend { (fs : List PlainFunction) (ts : List PlainThread) → Ascend (map function_body fs) → Ascend (map thread_body ts) → Ascend (in_order fs ts) }
{}

/// Among the bodies stand the validators of cells: what is walked is all of both, each in their order; and where each of the two are in
/// script order, so are both together.
pub fn validators_in_script_order()
    ensures bodies { (bs : List Body) (vs : List Validator) → bodies_in (together bs vs) ≡ bs }
    ensures validators { (bs : List Body) (vs : List Validator) → only_validators (together bs vs) ≡ vs }
    ensures ascend { (bs : List Body) (vs : List Validator) → Ascend bs → EachAscends (map of_validator vs) → EachAscends (together bs vs) }
{}

/// Each refusal is true of the program: a form that stands at its place has that fault where it stands, or the validator there has; or
/// with the body at its place the program has too many nodes.
pub fn refusals_are_true()
    ensures { (p : PlainProgram) (e : CheckError) → CheckStops p e → IsTrueOf p e }
{}
