//! What to do about a refusal, a fault or a stop: one sentence for each, in a table for each layer. A
//! refusal for want of memory has none, since the program tells of it by another line; nor has a good end.

ghost use Rattle.std.specs.Prelude.{◌≡◌, ◌<◌, ◌↔◌, length, IsNone};

use txs_check::CheckErrorKind;
use txs_reader::ReadErrorKind;
use txs_resolve_expand::ResolveErrorKind;
use txs_value_data::FaultKind;

/// What to do about a list of plays that has an item which says none.
pub const OF_LIST: &str =
    "Write each play as the number of its thread or agent, as 0, which goes on up to its next ask; with a `t` before it, as t0, for one step; and with `xN` behind it for N times, 1 to 100000.";

/// What to do about a script that isn't read.
pub fn of_read(kind: ReadErrorKind) -> Option<&'static str>
    ensures { IsNone result ↔ (kind ≡ ReadErrorKind.Memory) }
{
    Some(match kind {
        ReadErrorKind::NotUtf8 => "Save the script as UTF-8: no valid character begins here.",
        ReadErrorKind::Unclosed => {
            "Close the bracket or text that begins here, or put a form behind the `@`."
        }
        ReadErrorKind::Unopened => {
            "Close the innermost open bracket by its own kind, or take this one out; behind a `@` comes a form."
        }
        ReadErrorKind::BadToken => {
            "Write it with ASCII letters, digits and * + ! - _ ' ? < > = . alone."
        }
        ReadErrorKind::NumberTooLarge => {
            "Write a whole number from -9223372036854775808 to 9223372036854775807."
        }
        ReadErrorKind::BadEscape => {
            "Write \\t \\r \\n \\b \\f \\\\ \\\" or \\u with four hexadecimal digits that are no surrogate."
        }
        ReadErrorKind::TooDeep => {
            "Take the inner part out into a function: brackets and `@` nest at most 100 deep."
        }
        ReadErrorKind::TooLarge => {
            "Make it smaller: a script has at most 1,048,576 bytes, a text 65,535, a name 255, and a list 65,535 parts."
        }
        ReadErrorKind::LeftOut => "Write it another way: this profile of Clojure leaves it out.",
        ReadErrorKind::Memory => return None,
    })
}

/// What to do about forms that are no program.
pub fn of_resolve(kind: ResolveErrorKind) -> Option<&'static str>
    ensures { IsNone result ↔ (kind ≡ ResolveErrorKind.Memory) }
{
    Some(match kind {
        ResolveErrorKind::UnknownName => {
            "Define the name before its use: by a `def` or `defn` above, or a `let`, `loop` or parameter around it."
        }
        ResolveErrorKind::Redefined => {
            "Choose another name: this one is defined above, or a core operation has it."
        }
        ResolveErrorKind::BadForm => {
            "Write the form in its shape and place; functions, core operations and names of forms are no values, and a dot stands in the name of an `ns` alone."
        }
        ResolveErrorKind::NotCallable => "Put the name of a function or of a core operation here.",
        ResolveErrorKind::LocalCalled => {
            "Put the name of a function or of a core operation here: a local is never called, and hides what has its name."
        }
        ResolveErrorKind::SelfCall => {
            "Use `recur` in tail position, or a `loop`: a function can't call itself."
        }
        ResolveErrorKind::TooMany => {
            "Split it up: a script has at most 1,000 `def`s, 1,000 functions and 1,000 levels, a function 20 parameters and 200 live locals, a vector 32 levels."
        }
        ResolveErrorKind::Memory => return None,
    })
}

/// What to do about a program that isn't sound.
pub fn of_check(kind: CheckErrorKind) -> Option<&'static str>
    ensures { IsNone result ↔ (kind ≡ CheckErrorKind.Memory) }
{
    Some(match kind {
        CheckErrorKind::RecurNotTail => {
            "Put the `recur` into a `loop` or function, where nothing is left to do behind it."
        }
        CheckErrorKind::RecurCount => {
            "Give the `recur` as many values as its `loop` or function binds."
        }
        CheckErrorKind::RecurAcrossDosync => {
            "Put the `loop` into the `dosync`, or the `recur` outside: a `recur` never crosses a `dosync`."
        }
        CheckErrorKind::Arity => {
            "Give it as many arguments as it takes; the function of an `alter`, `commute`, `swap!` or `send` takes the cell's value as its first, and a validator that value alone."
        }
        CheckErrorKind::NotPure => {
            "Give it a core operation or a pure function: one with no `println`, no `dosync` and no form on cells, also in what it calls."
        }
        CheckErrorKind::InsideOnly => {
            "Put it into a `dosync`: a `ref-set`, `alter`, `commute` or `ensure`, and a function that needs a transaction around it, stand in one alone; a function that is sent has its own `dosync`."
        }
        CheckErrorKind::OutsideOnly => {
            "Move it out of the `dosync`: a `println`, `swap!` or `reset!`, and a function that has one of them, stand outside of transactions."
        }
        CheckErrorKind::CodeTooLarge => "Make the program smaller: it has at most 200,000 nodes.",
        CheckErrorKind::Memory => return None,
    })
}

/// What to do about a fault: for each kind there is a sentence.
pub fn of_fault(kind: FaultKind) -> &'static str
    ensures { 0 < length result.now }
{
    match kind {
        FaultKind::Overflow => "Keep the result within the 64 bits of whole numbers.",
        FaultKind::DivideByZero => "Test the divisor first: here it is 0.",
        FaultKind::NotANumber => "Give it whole numbers alone: here is something else.",
        FaultKind::NotAVector => "Give it a vector: here is something else.",
        FaultKind::IndexOut => "Test the index first: here it is below 0 or past the end.",
        FaultKind::PopEmpty => "Test `count` first: here the vector is empty.",
        FaultKind::NotACell => {
            "Give `deref`, or `@`, a ref, an atom or an agent: here is something else."
        },
        FaultKind::NotARef => "Give it a ref: here is something else.",
        FaultKind::NotAnAtom => "Give it an atom: here is something else.",
        FaultKind::NotAnAgent => "Give it an agent: here is something else.",
        FaultKind::OutsideOnly => "Read atoms and agents outside of the `dosync`.",
        FaultKind::SetAfterCommute => "Set the ref before the `commute`, or `alter` it alone.",
        FaultKind::RetryLimit => {
            "Make the `dosync` shorter, or write its refs less often: it had to run again too often."
        }
        FaultKind::AgentFailed => {
            "Send no more to an agent that has failed: here, or in the action that was sent here."
        }
        FaultKind::InvalidState => "Give the cell a value that its validator takes.",
        FaultKind::TooDeep => "Keep vectors at 32 levels: here is one more.",
        FaultKind::TooLong => "Keep vectors at 65,535 items: here is one more.",
    }
}

/// What to do about one whose steps are spent.
pub const OF_STEPS: &str = "Give it more steps by `--steps N`, or look for a loop that never ends.";

/// What to do about one that was stopped since the journal is full.
pub const OF_JOURNAL: &str =
    "Use fewer transactions, and fewer reads outside of them: the journal has at most 1,000,000 events.";

/// What to do about one that was stopped for want of memory.
pub const OF_MEMORY: &str = "Keep less in vectors and texts, or run it where there is more memory.";
