// Asks by the words of a row. What a row misspells is another ask, and isn't answered as the row says.
use std::alloc::Global;
use std::str::SplitWhitespace;
use txs_value_cell::{Action, Arguments};
use txs_value_data::{Callee, CellId, CellKind, Fault, FaultKind, Listed, Op, Span, Value};
use txs_world_protocol::Ask;

/// The agent `g`.
pub const AGENT: CellId = CellId {
    kind: CellKind::Agent,
    number: 2,
};

/// The agent `h`.
pub const OTHER_AGENT: CellId = CellId {
    kind: CellKind::Agent,
    number: 3,
};

const SPAN: Span = Span { from: 0, to: 1 };

/// The next word, or nothing.
pub fn next_word<'a>(words: &mut SplitWhitespace<'a>) -> &'a str {
    words.next().unwrap_or("")
}

/// A word of digits as a number; no word is one that stands in no row.
pub fn number_of(word: &str) -> u32 {
    if word.is_empty() {
        return u32::MAX;
    }
    let mut number = 0u32;
    for byte in word.as_bytes() {
        let digit = u32::from(byte.wrapping_sub(b'0'));
        number = number.wrapping_mul(10).wrapping_add(digit);
    }
    number
}

/// A word as the number of an actor or a cell, or one that stands in no row.
pub fn short_of(word: &str) -> u16 {
    u16::try_from(number_of(word)).unwrap_or(u16::MAX)
}

// A cell: a ref by its number, the agents `g` and `h`, the atoms `a` and `b`, or `other`, which is of another kind than its number.
fn cell_of(word: &str) -> CellId {
    let (kind, number) = match word {
        "g" => (CellKind::Agent, 2),
        "h" => (CellKind::Agent, 3),
        "a" => (CellKind::Atom, 1),
        "b" => (CellKind::Atom, 3),
        "other" => (CellKind::Agent, 0),
        _ => (CellKind::Ref, short_of(word)),
    };
    CellId { kind, number }
}

// The action of `(send g + N)` for a word `N`, of `(send h + N)` for a word `hN`.
fn action_of(word: &str) -> Action {
    let (agent, number) = match word.strip_prefix('h') {
        Some(number) => (OTHER_AGENT, number),
        None => (AGENT, word),
    };
    Action {
        agent,
        callee: Callee::Core(Op::Add),
        args: Arguments::one(Value::Int(i64::from(number_of(number)))),
        span: SPAN,
    }
}

// The writes of a list such as `1=7,0=2`, or `-` for none.
fn writes_of(alloc: Global, list: &str) -> Listed<(CellId, Value)> {
    let mut writes = Vec::new(alloc);
    for text in list.split(',') {
        let Some((cell, new)) = text.split_once('=') else {
            break;
        };
        let new = Value::Int(i64::from(number_of(new)));
        if writes.push((cell_of(cell), new)).is_err() {
            break;
        }
    }
    Listed::from_vec(writes)
}

// The cells of a list such as `1,0`, or `-` for none.
fn cells_of(alloc: Global, list: &str) -> Listed<CellId> {
    let mut cells = Vec::new(alloc);
    for word in list.split(',') {
        if word == "-" || cells.push(cell_of(word)).is_err() {
            break;
        }
    }
    Listed::from_vec(cells)
}

// The actions of a list such as `5,h6`, or `-` for none.
fn actions_of(alloc: Global, list: &str) -> Listed<Action> {
    let mut actions = Vec::new(alloc);
    for word in list.split(',') {
        if word == "-" || actions.push(action_of(word)).is_err() {
            break;
        }
    }
    Listed::from_vec(actions)
}

// The end of an agent's action by its new state, or `fault`, and the list of what it sends.
fn finish_of(alloc: Global, agent: CellId, words: &mut SplitWhitespace<'_>) -> Ask {
    let new = match next_word(words) {
        "fault" => Err(Fault {
            kind: FaultKind::Overflow,
            span: SPAN,
        }),
        word => Ok(Value::Int(i64::from(number_of(word)))),
    };
    Ask::Finish {
        agent,
        new,
        sends: actions_of(alloc, next_word(words)),
    }
}

// A commit by its read point, its view, and the lists of what it sets, ensures, commutes and sends.
fn commit_of(alloc: Global, words: &mut SplitWhitespace<'_>) -> Ask {
    let at = number_of(next_word(words));
    let view = number_of(next_word(words));
    let sets = writes_of(alloc, next_word(words));
    let ensured = cells_of(alloc, next_word(words));
    let commuted = writes_of(alloc, next_word(words));
    let sends = actions_of(alloc, next_word(words));
    Ask::Commit {
        at,
        sets,
        ensured,
        view,
        commuted,
        sends,
    }
}

// An ask of a cell by its name and the words behind the cell.
fn ask_of_cell(name: &str, cell: CellId, words: &mut SplitWhitespace<'_>) -> Ask {
    if name == "peek" {
        return Ask::Peek { cell };
    }
    if name == "open" {
        return Ask::OpenAt { cell };
    }
    let first = number_of(next_word(words));
    match name {
        "look" => Ask::Look { cell, at: first },
        "close" => Ask::CloseAt {
            cell,
            at: Some(number_of(next_word(words))),
            new: Value::Int(i64::from(first)),
        },
        _ => Ask::Broke { cell, at: first },
    }
}

/// An ask by its words, of which the first is its name. To take and to finish is of this agent.
pub fn ask_of(alloc: Global, agent: CellId, words: &mut SplitWhitespace<'_>) -> Ask {
    match next_word(words) {
        "begin" => Ask::Begin,
        "take" => Ask::Take { agent },
        "fail" => {
            let at = number_of(next_word(words));
            Ask::Fail { at, view: at }
        }
        "commit" => commit_of(alloc, words),
        "view" => Ask::View {
            cells: cells_of(alloc, next_word(words)),
        },
        "send" => Ask::Send {
            action: action_of(next_word(words)),
        },
        "finish" => finish_of(alloc, agent, words),
        name => ask_of_cell(name, cell_of(next_word(words)), words),
    }
}
