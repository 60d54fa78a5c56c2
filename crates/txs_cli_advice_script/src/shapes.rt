//! The shapes of the forms, and how many arguments the core operations take.

ghost use Rattle.std.specs.Prelude.{◌≡◌, [], false, map};
ghost use Rattle.txs_cli_advice_script.specs.Language.{count_shown, form_shape};
ghost use Rattle.txs_cli_advice_script.specs.Nears.{Nearest};
ghost use Rattle.txs_cli_advice_script.specs.Rows.{said_in, words_of};

use crate::near::Near;
use crate::rows::{Row, in_rows, nearest_in};

/// The forms of the top of a script, and of a `def` there.
static AT_TOP: [Row; 6] = [
    (
        "def",
        "Write `(def NAME LITERAL)` or `(def NAME (ref LITERAL))`, or so with `atom` or `agent`: nothing is computed at the top of a script.",
    ),
    (
        "defn",
        "Write `(defn NAME [PARAMETER ..] BODY ..)`, with one list of parameters, each of which is a name; a text may come before it.",
    ),
    (
        "ns",
        "Write `(ns NAME)` as the first form, with nothing after the name: a script has no other namespaces.",
    ),
    (
        "ref",
        "Write `(def NAME (ref LITERAL))`, with no option after the literal but one `:validator FUNCTION`: nothing is computed at the top of a script.",
    ),
    (
        "atom",
        "Write `(def NAME (atom LITERAL))`, with no option after the literal but one `:validator FUNCTION`: nothing is computed at the top of a script.",
    ),
    (
        "agent",
        "Write `(def NAME (agent LITERAL))`, with no option after the literal but one `:validator FUNCTION`, and one `:error-mode :continue` or `:error-mode :fail`.",
    ),
];

/// What to do about a form at the top of a script that belongs below it.
pub const NOT_AT_TOP: &str =
    "Only `ns`, `def`, `defn` and `future` belong at the top of a script: put it into a `(future ..)`.";

/// All forms, below the top; and a list that begins with no name.
static INSIDE: [Row; 29] = [
    ("", NOT_AT_TOP),
    (
        "ns",
        "Put the `ns` at the top of the script, as its first form.",
    ),
    (
        "def",
        "Put the `def` at the top of the script; in a body `let` names a value, and a ref or atom holds what changes.",
    ),
    (
        "defn",
        "Put the `defn` at the top of the script, before its first use; what it takes from around it becomes a parameter.",
    ),
    (
        "future",
        "Put the `future` at the top of the script: a thread starts no other, and gives no value.",
    ),
    (
        "ref",
        "Put it into a `def` at the top of the script, as `(def NAME (ref LITERAL))`.",
    ),
    (
        "atom",
        "Put it into a `def` at the top of the script, as `(def NAME (atom LITERAL))`.",
    ),
    (
        "agent",
        "Put it into a `def` at the top of the script, as `(def NAME (agent LITERAL))`.",
    ),
    (
        "if",
        "Write `(if TEST THEN)` or `(if TEST THEN ELSE)`; several expressions of one branch go into a `do`.",
    ),
    (
        "if-not",
        "Write `(if-not TEST THEN)` or `(if-not TEST THEN ELSE)`; several expressions of one branch go into a `do`.",
    ),
    ("when", "Write `(when TEST BODY ..)`."),
    ("when-not", "Write `(when-not TEST BODY ..)`."),
    (
        "cond",
        "Write `(cond TEST VALUE ..)` in pairs; `:else` is a test that always holds.",
    ),
    ("and", "Write `(and VALUE ..)`."),
    ("or", "Write `(or VALUE ..)`."),
    ("do", "Write `(do BODY ..)`."),
    (
        "let",
        "Write `(let [NAME VALUE ..] BODY ..)`, in pairs: a NAME is a symbol, and the parts of a vector are taken by `nth`.",
    ),
    (
        "loop",
        "Write `(loop [NAME VALUE ..] BODY ..)`, in pairs: a NAME is a symbol, and the parts of a vector are taken by `nth`.",
    ),
    ("recur", "Write `(recur VALUE ..)`."),
    ("println", "Write `(println VALUE ..)`."),
    ("dosync", "Write `(dosync BODY ..)`."),
    (
        "deref",
        "Write `@CELL` or `(deref CELL)`, with nothing after the cell.",
    ),
    ("ensure", "Write `(ensure REF)`."),
    ("ref-set", "Write `(ref-set REF VALUE)`."),
    ("reset!", "Write `(reset! ATOM VALUE)`."),
    (
        "alter",
        "Write `(alter REF FUNCTION VALUE ..)`, with the name of a function, which gets the ref's value first.",
    ),
    (
        "commute",
        "Write `(commute REF FUNCTION VALUE ..)`, with the name of a function, which gets the ref's value first.",
    ),
    (
        "swap!",
        "Write `(swap! ATOM FUNCTION VALUE ..)`, with the name of a function, which gets the atom's value first.",
    ),
    (
        "send",
        "Write `(send AGENT FUNCTION VALUE ..)`, with the name of a function, which gets the agent's state first.",
    ),
];

/// How many arguments an operation takes: at least, as it is shown, and what follows where there are more.
pub type Takes = (usize, &'static str, &'static str);

/// What core operations take, by their names.
static OPERATIONS: [(&'static str, Takes); 17] = [
    ("+ *", (2, "2 or more", "")),
    ("-", (1, "1 or more", "")),
    ("inc", (1, "1", "; write `(+ n m)`")),
    ("dec", (1, "1", "; write `(- n m)`")),
    ("quot rem mod", (2, "2", "")),
    ("=", (2, "2", "; write `(and (= a b) (= b c))`")),
    ("<", (2, "2", "; write `(and (< a b) (< b c))`")),
    (">", (2, "2", "; write `(and (> a b) (> b c))`")),
    ("<=", (2, "2", "; write `(and (<= a b) (<= b c))`")),
    (">=", (2, "2", "; write `(and (>= a b) (>= b c))`")),
    ("not=", (2, "2", "; write `(not (and (= a b) (= b c)))`")),
    ("max", (2, "2", "; write `(max (max a b) c)`")),
    ("min", (2, "2", "; write `(min (min a b) c)`")),
    ("not nil? zero? pos? neg? count peek pop", (1, "1", "")),
    (
        "nth",
        (
            2,
            "2",
            "; test the index first, as `(if (< i (count v)) (nth v i) x)`",
        ),
    ),
    ("conj", (2, "2", "; write `(conj (conj v a) b)`")),
    ("assoc", (3, "3", "; write `(assoc (assoc v i a) j b)`")),
];

/// The forms that stand at the top of a script.
static TOP: [(&'static str, bool); 1] = [("ns def defn future", true)];

/// Whether a list that begins with this name stands at the top of a script.
#[tactic(auto, unfolding(crate::specs::Rows::said_in))]
pub fn is_of_top(name: &str) -> bool
    ensures { result ≡ said_in (map (λ row. (row.0.now, row.1)) TOP) name.now false }
{
    in_rows(&TOP, name, false)
}

/// The shape of a form of the top of a script, or of a cell in a `def`; else this.
pub fn shape_at_top(name: &str, otherwise: &'static str) -> &'static str
    ensures { result.now ≡ said_in (map (λ row. (row.0.now, row.1.now)) AT_TOP) name.now otherwise.now }
{
    in_rows(&AT_TOP, name, otherwise)
}

/// What to write of a form below the top of a script, by its name, which is empty for a list that begins with no name; an empty text
/// about any other name.
pub fn inside(name: &str) -> &'static str
    ensures { result.now ≡ form_shape name.now }
{
    in_rows(&INSIDE, name, "")
}

/// What a core operation takes; empty texts for any other name.
pub fn takes(name: &str) -> Takes
    ensures count { result.0 ≡ said_in (map (λ row. (row.0.now, row.1.0)) OPERATIONS) name.now 0 }
    ensures shown { result.1.now ≡ count_shown name.now }
    ensures more { result.2.now ≡ said_in (map (λ row. (row.0.now, row.1.2.now)) OPERATIONS) name.now [] }
{
    in_rows(&OPERATIONS, name, (0, "", ""))
}

/// The form of the top that is nearest to a name, if it is nearer than this.
pub fn nearest_at_top(name: &str, best: Near<'static>) -> Near<'static>
    ensures { Nearest (words_of (map (λ row. row.0.now) TOP)) best.entry result }
{
    nearest_in(&TOP, name, best)
}

/// The form that is nearest to a name, if it is nearer than this.
pub fn nearest_form(name: &str, best: Near<'static>) -> Near<'static>
    ensures { Nearest (words_of (map (λ row. row.0.now) INSIDE)) best.entry result }
{
    nearest_in(&INSIDE, name, best)
}

/// The core operation that is nearest to a name, if it is nearer than this.
pub fn nearest_operation(name: &str, best: Near<'static>) -> Near<'static>
    ensures { Nearest (words_of (map (λ row. row.0.now) OPERATIONS)) best.entry result }
{
    nearest_in(&OPERATIONS, name, best)
}
