//! The core operations by name and by number, and what a form may call.

ghost use Rattle.std.specs.Prelude.{◌≡◌, ◌≢◌, MatchOption};
ghost use Rattle.txs_value_data.specs.Operations.{op_name, op_number};
ghost use Rattle.txs_value_data.specs.declared.op.Op.{Op as AnOp};

/// The 27 core operations, in the order of their numbers from 0.
#[derive(Clone, Copy, PartialEq, Eq)]
pub enum Op {
    Add,
    Subtract,
    Multiply,
    Inc,
    Dec,
    Quot,
    Rem,
    Mod,
    Equal,
    NotEqual,
    Less,
    Greater,
    LessOrEqual,
    GreaterOrEqual,
    Max,
    Min,
    Not,
    IsNil,
    IsZero,
    IsPositive,
    IsNegative,
    Count,
    Nth,
    Conj,
    Assoc,
    Peek,
    Pop,
}

/// How many core operations there are.
const COUNT: u8 = 27;

/// The core operations by their numbers.
const OPERATIONS: [Op; 27] = [
    Op::Add,
    Op::Subtract,
    Op::Multiply,
    Op::Inc,
    Op::Dec,
    Op::Quot,
    Op::Rem,
    Op::Mod,
    Op::Equal,
    Op::NotEqual,
    Op::Less,
    Op::Greater,
    Op::LessOrEqual,
    Op::GreaterOrEqual,
    Op::Max,
    Op::Min,
    Op::Not,
    Op::IsNil,
    Op::IsZero,
    Op::IsPositive,
    Op::IsNegative,
    Op::Count,
    Op::Nth,
    Op::Conj,
    Op::Assoc,
    Op::Peek,
    Op::Pop,
];

impl Op {
    /// The name in Clojure.
    pub fn name(self) -> &'static [u8]
        ensures { result.now ≡ op_name self }
    {
        match self {
            Op::Add => b"+",
            Op::Subtract => b"-",
            Op::Multiply => b"*",
            Op::Inc => b"inc",
            Op::Dec => b"dec",
            Op::Quot => b"quot",
            Op::Rem => b"rem",
            Op::Mod => b"mod",
            Op::Equal => b"=",
            Op::NotEqual => b"not=",
            Op::Less => b"<",
            Op::Greater => b">",
            Op::LessOrEqual => b"<=",
            Op::GreaterOrEqual => b">=",
            Op::Max => b"max",
            Op::Min => b"min",
            Op::Not => b"not",
            Op::IsNil => b"nil?",
            Op::IsZero => b"zero?",
            Op::IsPositive => b"pos?",
            Op::IsNegative => b"neg?",
            Op::Count => b"count",
            Op::Nth => b"nth",
            Op::Conj => b"conj",
            Op::Assoc => b"assoc",
            Op::Peek => b"peek",
            Op::Pop => b"pop",
        }
    }

    /// The number, from 0 to 26.
    pub fn number(self) -> u8
        ensures { result ≡ op_number self }
    {
        self as u8
    }

    /// The operation of this number, if there is one.
    pub fn from_number(number: u8) -> Option<Op>
        ensures { MatchOption result ((op : AnOp) → op_number op ≢ number) (λ op. op_number op ≡ number) }
    {
        let operations = &OPERATIONS;
        if number < COUNT {
            Some(operations[usize::from(number)])
        } else {
            None
        }
    }

    /// The operation of this name, if there is one.
    pub fn from_name(name: &[u8]) -> Option<Op>
        ensures { MatchOption result ((op : AnOp) → op_name op ≢ name.now) (λ op. op_name op ≡ name.now) }
    {
        for op in &OPERATIONS {
            if op.name() == name {
                return Some(*op);
            }
        }
        None
    }
}

/// The law that no two operations have one name.
pub fn op_names_differ()
    ensures { (a b : AnOp) → op_name a ≡ op_name b → a ≡ b }
{}

/// What `alter`, `commute`, `swap!` and `send` call: a core operation, or a function by its number.
#[derive(Clone, Copy, PartialEq, Eq)]
pub enum Callee {
    Core(Op),
    Function(u16),
}
