//! The nodes of a program.

use txs_value_cell::{LookForm, PutForm, UpdateForm};
use txs_value_data::{Callee, Op, Span, Value};

/// What a node does.
#[cycle(node)]
#[derive(Drop)]
pub enum NodeKind {
    /// A constant.
    Const(Value),
    /// A local, by its number: locals are numbered by nesting, from 0, parameters first.
    Local(u8),
    /// The test, and then one branch alone: the first, or where the test's value is nil or false the second.
    If(Box<Node>, Box<Node>, Box<Node>),
    /// The items in order, with the last one's result. There is at least one.
    Do(Vec<Node>),
    /// The values in order, each of which sees the earlier ones as locals, and then the body.
    Let(Vec<Node>, Box<Node>),
    /// A let whose body a recur runs again.
    Loop(Vec<Node>, Box<Node>),
    /// The values in order, for the next turn of the nearest loop or function, in whose tail position it is.
    Recur(Vec<Node>),
    /// A core operation on its arguments.
    Core(Op, Vec<Node>),
    /// A function, by its number, on its arguments.
    Call(u16, Vec<Node>),
    /// The vector of the items.
    Vector(Vec<Node>),
    /// Prints its arguments as a line, outside every transaction.
    Println(Vec<Node>),
    /// The body in a transaction. One inside another joins it.
    Dosync(Box<Node>),
    /// A form that reads the cell.
    Look(LookForm, Box<Node>),
    /// A form that gives the cell the value.
    Put(PutForm, Box<Node>, Box<Node>),
    /// A form that gives the cell what the callee makes of its value and the arguments.
    Update(UpdateForm, Box<Node>, Callee, Vec<Node>),
    /// Sends the agent an action: the callee on its state and the arguments.
    Send(Box<Node>, Callee, Vec<Node>),
}

/// A node of a program: what it does, where it is in the script, and whether its result is wanted.
#[cycle(node)]
#[derive(Drop)]
pub struct Node {
    pub kind: NodeKind,
    pub span: Span,
    pub wanted: bool,
}

/// A function: how many parameters it has, its body, and where its definition is in the script. It calls
/// functions before it alone.
#[derive(Drop)]
pub struct Function {
    pub parameters: u8,
    pub body: Node,
    pub span: Span,
}

/// A thread: the body of a future, and where the future is in the script.
#[derive(Drop)]
pub struct Thread {
    pub body: Node,
    pub span: Span,
}
