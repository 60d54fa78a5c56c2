//! The names of clojure.core that this profile leaves out, and what to write in their place.

ghost use Rattle.std.specs.Prelude.{◌≡◌, [], map};
ghost use Rattle.txs_cli_advice_script.specs.Rows.{said_in};

use crate::rows::{Row, in_rows};

/// Of vectors and sequences.
static ITEMS: [Row; 22] = [
    ("first", "write `(nth v 0)`."),
    ("second fnext", "write `(nth v 1)`."),
    ("last", "write `(peek v)`."),
    (
        "butlast drop-last",
        "write `(pop v)` for all items but the last.",
    ),
    (
        "rest next nnext nthrest nthnext ffirst nfirst",
        "keep an index in a `loop`, and read the vector by `nth`.",
    ),
    (
        "get find",
        "write `(nth v i)`, after a test of `i` where there may be no such item.",
    ),
    (
        "get-in assoc-in update-in",
        "take a part by `nth` and set it by `assoc`, level by level.",
    ),
    ("update", "write `(assoc v i (f (nth v i)))`."),
    ("empty?", "write `(zero? (count v))`."),
    ("seq not-empty", "write `(pos? (count v))` as the test."),
    ("empty", "write `[]`."),
    ("vector vec list list* vector-of", "write `[a b c]`."),
    (
        "cons",
        "write `(conj v x)`, which puts the item at the end.",
    ),
    (
        "contains?",
        "test the index, as `(and (<= 0 i) (< i (count v)))`.",
    ),
    (
        "dotimes",
        "write `(loop [i 0] (when (< i n) .. (recur (inc i))))`.",
    ),
    ("while", "write `(loop [] (when test .. (recur)))`."),
    (
        "range repeat repeatedly replicate iterate iteration cycle lazy-seq lazy-cat",
        "count in a `loop`, with `conj` for the result.",
    ),
    (
        "map mapv mapcat map-indexed filter filterv remove keep keep-indexed reduce reduce-kv reductions doseq for run! doall dorun every? not-every? some not-any? take take-while take-last take-nth drop drop-while split-at split-with partition partition-all partition-by interleave interpose concat into distinct distinct? dedupe reverse rseq sort sort-by group-by frequencies flatten subvec subseq rsubseq replace max-key min-key tree-seq iterator-seq enumeration-seq seque sequence eduction transduce completing cat halt-when reduced reduced? ensure-reduced unreduced bounded-count",
        "write a `loop` with an index, by `nth` and `count`, and `conj` for the result.",
    ),
    (
        "hash-map array-map sorted-map sorted-map-by dissoc merge merge-with select-keys keys vals key val zipmap update-keys update-vals struct struct-map create-struct defstruct accessor",
        "write a vector, and name its indices by `def`.",
    ),
    (
        "set hash-set sorted-set sorted-set-by disj",
        "write a vector, and look through it in a `loop`.",
    ),
    (
        "transient persistent! conj! assoc! dissoc! disj! pop!",
        "write `conj`, `assoc` and `pop`, which change in place what nothing else holds.",
    ),
    (
        "aget aset aset-boolean aset-byte aset-char aset-double aset-float aset-int aset-long aset-short alength aclone amap areduce make-array object-array boolean-array byte-array char-array double-array float-array int-array long-array short-array to-array to-array-2d into-array booleans bytes chars doubles floats ints longs shorts",
        "write a vector, with `nth` and `assoc`.",
    ),
];

/// Of numbers, texts and tests.
static VALUES: [Row; 19] = [
    ("even?", "write `(zero? (mod n 2))`."),
    ("odd?", "write `(= 1 (mod n 2))`."),
    ("abs", "write `(if (neg? n) (- n) n)`."),
    ("== identical?", "write `=`."),
    ("compare comparator", "write `<`, `=` and `>`."),
    (
        "+' -' *' inc' dec'",
        "write it without the `'`: a result past 64 bits is a fault.",
    ),
    (
        "unchecked-add unchecked-add-int unchecked-subtract unchecked-subtract-int unchecked-multiply unchecked-multiply-int unchecked-inc unchecked-inc-int unchecked-dec unchecked-dec-int unchecked-negate unchecked-negate-int unchecked-divide-int unchecked-remainder-int",
        "write `+`, `-`, `*`, `inc`, `dec`, `quot` or `rem`: a result past 64 bits is a fault.",
    ),
    (
        "bit-and bit-or bit-xor bit-not bit-and-not bit-clear bit-flip bit-set bit-test bit-shift-left bit-shift-right unsigned-bit-shift-right",
        "write `quot`, `mod` and `*` by powers of 2.",
    ),
    (
        "rand rand-int rand-nth random-sample random-uuid shuffle",
        "compute each number from the last one, by `*`, `+` and `mod`: nothing is random.",
    ),
    (
        "int long short byte float double num bigint biginteger bigdec rationalize numerator denominator cast unchecked-byte unchecked-char unchecked-double unchecked-float unchecked-int unchecked-long unchecked-short with-precision",
        "write the whole number itself: there are no others.",
    ),
    ("boolean", "write `(if x true false)`."),
    ("true? false?", "write `(= true x)` or `(= false x)`."),
    ("some?", "write `(not (nil? x))`."),
    (
        "number? int? integer? nat-int? pos-int? neg-int? rational? ratio? decimal? float? double? infinite? NaN? boolean? char? string? keyword? symbol? ident? simple-ident? simple-keyword? simple-symbol? qualified-ident? qualified-keyword? qualified-symbol? vector? list? map? set? seq? coll? sequential? associative? counted? indexed? reversible? sorted? seqable? map-entry? record? fn? ifn? var? class? bytes? inst? uri? uuid? special-symbol? any? type class instance? isa? satisfies? extends?",
        "keep a keyword beside the value that says of which kind it is.",
    ),
    (
        "pr prn print printf newline flush",
        "write `println`, which puts a space between its arguments and a newline after them.",
    ),
    (
        "str format subs name namespace char pr-str prn-str print-str println-str with-out-str char-escape-string char-name-string re-find re-matches re-seq re-pattern re-groups re-matcher",
        "give the parts to `println`: texts are printed and compared whole.",
    ),
    (
        "keyword symbol find-keyword gensym",
        "write the keyword itself, as `:a`.",
    ),
    (
        "parse-long parse-double parse-boolean parse-uuid read read-string read-line read+string slurp spit with-open with-in-str line-seq file-seq xml-seq resultset-seq",
        "put the value into the script by a `def`: there is no input.",
    ),
    (
        "meta with-meta vary-meta alter-meta! reset-meta!",
        "take it out: there is no metadata.",
    ),
];

/// Of functions, branches and whole scripts.
static FORMS: [Row; 20] = [
    (
        "case condp",
        "write `(cond (= x 1) .. (= x 2) .. :else ..)`.",
    ),
    (
        "if-let when-let if-some when-some when-first",
        "write `(let [x ..] (if x .. ..))`.",
    ),
    (
        "-> ->> as-> some-> some->> cond-> cond->> doto",
        "write the calls in one another, or name each step in a `let`.",
    ),
    (
        "fn fn* letfn letfn* bound-fn bound-fn*",
        "write a `defn`, and name that.",
    ),
    (
        "partial comp complement constantly juxt memoize fnil every-pred some-fn trampoline",
        "write a `defn` that makes the call: functions are no values.",
    ),
    (
        "apply",
        "go through the vector in a `loop`, by `nth` and `count`.",
    ),
    ("identity", "write the value itself."),
    ("let* loop*", "write it without the `*`."),
    ("defn-", "write `defn`."),
    ("defonce", "write `def`."),
    ("declare", "put the definition before its first use."),
    (
        "defmacro macroexpand macroexpand-1 definline unquote unquote-splicing",
        "write a `defn`: there are no macros.",
    ),
    (
        "defmulti defmethod methods get-method remove-method remove-all-methods prefer-method prefers make-hierarchy derive underive ancestors descendants parents defprotocol defrecord deftype deftype* extend extend-protocol extend-type extenders reify reify* definterface",
        "write a `defn` with a `cond` over a keyword that says the kind.",
    ),
    (
        "try catch finally throw ex-info ex-data ex-message ex-cause assert Throwable->map StackTraceElement->vec",
        "test before what may fail, by `if` or `when`: a fault ends its thread.",
    ),
    (
        "quote",
        "write a vector or a keyword: lists and symbols are no values.",
    ),
    ("comment", "put a `;` before each line."),
    (
        "require requiring-resolve use import import* refer refer-clojure in-ns create-ns remove-ns alias load load-file load-reader load-string loaded-libs compile with-loading-context",
        "put all that is needed into this one script.",
    ),
    (
        "new memfn bean proxy proxy-super proxy-mappings init-proxy update-proxy construct-proxy gen-class gen-interface bases supers",
        "take it out: there are no classes of Java.",
    ),
    (
        "binding with-bindings with-bindings* with-redefs with-redefs-fn with-local-vars var var-get var-set set! alter-var-root bound? thread-bound? intern find-var get-thread-bindings push-thread-bindings pop-thread-bindings",
        "pass the value as an argument, or keep it in a ref or an atom.",
    ),
    ("time", "take it out: there is no clock."),
];

/// Of threads and cells.
static THREADS: [Row; 15] = [
    ("send-off send-via", "write `send`."),
    (
        "await await-for await1 shutdown-agents release-pending-sends",
        "take it out: a run ends when no agent has anything to do.",
    ),
    (
        "restart-agent agent-error agent-errors clear-agent-errors set-error-mode! set-error-handler! error-mode error-handler",
        "write `(def g (agent 0 :error-mode :continue))` for an agent that continues after a fault.",
    ),
    (
        "set-agent-send-executor! set-agent-send-off-executor!",
        "take it out, and give `--workers`.",
    ),
    ("*agent*", "name the agent, where the action is sent."),
    (
        "swap-vals! reset-vals! compare-and-set!",
        "write `swap!` or `reset!`, which give the new value.",
    ),
    (
        "volatile! volatile? vreset! vswap!",
        "write an atom, or a `loop` whose local changes.",
    ),
    (
        "set-validator! get-validator",
        "write `(def a (atom 0 :validator f))`, and so for a ref or an agent: a cell's validator stays as it is.",
    ),
    (
        "add-watch remove-watch ref-history-count ref-min-history ref-max-history",
        "take it out: a cell has its value alone.",
    ),
    (
        "io!",
        "write its body alone: what prints is refused in a `dosync` anyway.",
    ),
    (
        "locking monitor-enter monitor-exit sync",
        "write a `dosync` around what belongs together.",
    ),
    (
        "promise deliver",
        "write a ref that one `future` sets and another reads.",
    ),
    ("delay delay? force realized?", "write a `let` or a `defn`."),
    (
        "future-call pmap pcalls pvalues",
        "write a `future` for each part.",
    ),
    (
        "future? future-cancel future-cancelled? future-done?",
        "take it out: a future ends by itself, and gives no value.",
    ),
];

/// The others.
static OTHERS: [Row; 2] = [
    (
        "*out* *err* *in* *ns* *file* *assert* *command-line-args* *clojure-version* *compile-files* *compile-path* *compiler-options* *data-readers* *default-data-reader-fn* *flush-on-newline* *math-context* *print-dup* *print-length* *print-level* *print-meta* *print-namespace-maps* *print-readably* *read-eval* *unchecked-math* *verbose-defrecords* *warn-on-reflection* *1 *2 *3 *e",
        "take it out: there are no dynamic variables.",
    ),
    (
        "add-classpath add-tap remove-tap tap> all-ns find-ns the-ns ns-aliases ns-imports ns-interns ns-map ns-name ns-publics ns-refers ns-resolve ns-unalias ns-unmap resolve eval test clojure-version hash hash-combine hash-ordered-coll hash-unordered-coll mix-collection-hash munge namespace-munge destructure default-data-readers tagged-literal tagged-literal? reader-conditional reader-conditional? inst-ms inst-ms* chunk chunk-append chunk-buffer chunk-cons chunk-first chunk-next chunk-rest chunked-seq? find-protocol-impl find-protocol-method get-proxy-class proxy-name proxy-call-with-super print-ctor print-dup print-method print-simple primitives-classnames seq-to-map-for-destructuring method-sig case*",
        "use the operations `+ - * inc dec quot rem mod = not= < > <= >= max min not nil? zero? pos? neg? count nth conj assoc peek pop`.",
    ),
];

/// Words of other languages, or of Clojure where they aren't names.
static WORDS: [Row; 15] = [
    (
        "else otherwise default elif elseif elsif",
        "write `:else` as the last test of a `cond`.",
    ),
    ("null none undefined void NULL None NIL Nil", "write `nil`."),
    ("True TRUE yes", "write `true`."),
    ("False FALSE no", "write `false`."),
    (
        "lambda func function fun def-",
        "write a `defn` at the top of the script, and name that.",
    ),
    (
        "defun define defn! defun! sub proc method",
        "write `(defn NAME [PARAMETER ..] BODY ..)` at the top of the script.",
    ),
    ("!= <> /= !== not== not-equal", "write `not=`."),
    (
        "return",
        "take it out: the value of the last expression is that of the function.",
    ),
    ("begin progn block", "write `(do BODY ..)`."),
    (
        "setq setf set assign let! const letrec",
        "write `(let [NAME VALUE ..] BODY ..)`; what changes is kept in a ref or an atom.",
    ),
    (
        "echo puts display console.log printf! say log print! println!",
        "write `(println VALUE ..)`.",
    ),
    ("length len size size-of", "write `(count v)`."),
    (
        "push append add-to append!",
        "write `(conj v x)`, which gives a vector with one more item.",
    ),
    (
        "foreach for-each each until repeat-until",
        "write a `loop` with an index, by `nth` and `count`.",
    ),
    ("sleep wait delay-ms now", "take it out: there is no clock."),
];

/// Calls of classes of Java and of other namespaces that scripts often have.
static CALLS: [Row; 10] = [
    ("&&", "write `(and a b)`."),
    (
        "Math/abs clojure.math/abs",
        "write `(if (neg? n) (- n) n)`.",
    ),
    ("Math/max", "write `max`."),
    ("Math/min", "write `min`."),
    (
        "Math/floorMod Math/floorDiv Math/floor Math/ceil Math/round",
        "write `quot` and `mod`, which are of whole numbers.",
    ),
    (
        "Math/pow Math/sqrt clojure.math/pow clojure.math/sqrt",
        "compute it in a `loop`, by whole numbers.",
    ),
    (
        "Math/random",
        "compute each number from the last one, by `*`, `+` and `mod`: nothing is random.",
    ),
    (
        "Thread/sleep System/currentTimeMillis System/nanoTime",
        "take it out: there is no clock.",
    ),
    (
        "Integer/parseInt Long/parseLong Long/valueOf Integer/valueOf",
        "put the number into the script by a `def`: there is no input.",
    ),
    (
        "System/exit",
        "take it out: a run ends when its threads and agents have ended.",
    ),
];

/// What to do about a name of clojure.core that this profile leaves out; an empty text about any other name.
pub fn instead_of(name: &str) -> &'static str
    ensures { result.now ≡ said_in (map (λ row. (row.0.now, row.1.now)) ITEMS) name.now (said_in (map (λ row. (row.0.now, row.1.now)) VALUES) name.now (said_in (map (λ row. (row.0.now, row.1.now)) FORMS) name.now (said_in (map (λ row. (row.0.now, row.1.now)) THREADS) name.now (said_in (map (λ row. (row.0.now, row.1.now)) OTHERS) name.now [])))) }
{
    let rest = in_rows(&THREADS, name, in_rows(&OTHERS, name, ""));
    in_rows(
        &ITEMS,
        name,
        in_rows(&VALUES, name, in_rows(&FORMS, name, rest)),
    )
}

/// What to do about a word that is no name of clojure.core, and is one of another language; an empty text about any other word.
pub fn instead_of_word(name: &str) -> &'static str
    ensures { result.now ≡ said_in (map (λ row. (row.0.now, row.1.now)) WORDS) name.now [] }
{
    in_rows(&WORDS, name, "")
}

/// What to do about a name of another namespace or of a class, written whole; an empty text about any other.
pub fn instead_of_call(name: &str) -> &'static str
    ensures { result.now ≡ said_in (map (λ row. (row.0.now, row.1.now)) CALLS) name.now [] }
{
    in_rows(&CALLS, name, "")
}
