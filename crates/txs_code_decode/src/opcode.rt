//! Instructions by the byte that says which they are.

ghost use Rattle.std.specs.Prelude.{◌≡◌};
ghost use Rattle.txs_value_data.specs.Places.{nth};
ghost use Rattle.txs_code_decode.specs.InstrForm.{opcode_byte, opcode_of, opcodes};

use txs_code_meaning::{Instr, OpenForm};
use txs_value_cell::{LookForm, PutForm, UpdateForm};

/// Which instruction it is, in the order of their bytes from 0.
#[derive(Clone, Copy)]
pub enum Opcode {
    Const,
    Local,
    Store,
    Pop,
    Jump,
    JumpFalse,
    Core,
    Call,
    Return,
    Vector,
    Print,
    Deref,
    TxBegin,
    TxEnd,
    RefSet,
    AlterOpen,
    AlterClose,
    CommuteOpen,
    CommuteClose,
    Ensure,
    SwapOpen,
    SwapClose,
    Reset,
    Send,
    Halt,
}

/// The instructions by their bytes.
const OPCODES: [Opcode; 25] = [
    Opcode::Const,
    Opcode::Local,
    Opcode::Store,
    Opcode::Pop,
    Opcode::Jump,
    Opcode::JumpFalse,
    Opcode::Core,
    Opcode::Call,
    Opcode::Return,
    Opcode::Vector,
    Opcode::Print,
    Opcode::Deref,
    Opcode::TxBegin,
    Opcode::TxEnd,
    Opcode::RefSet,
    Opcode::AlterOpen,
    Opcode::AlterClose,
    Opcode::CommuteOpen,
    Opcode::CommuteClose,
    Opcode::Ensure,
    Opcode::SwapOpen,
    Opcode::SwapClose,
    Opcode::Reset,
    Opcode::Send,
    Opcode::Halt,
];

impl Opcode {
    /// The byte, from 0 to 24.
    pub fn byte(self) -> u8
        ensures { result ≡ opcode_byte self }
    {
        match self {
            Opcode::Const => 0,
            Opcode::Local => 1,
            Opcode::Store => 2,
            Opcode::Pop => 3,
            Opcode::Jump => 4,
            Opcode::JumpFalse => 5,
            Opcode::Core => 6,
            Opcode::Call => 7,
            Opcode::Return => 8,
            Opcode::Vector => 9,
            Opcode::Print => 10,
            Opcode::Deref => 11,
            Opcode::TxBegin => 12,
            Opcode::TxEnd => 13,
            Opcode::RefSet => 14,
            Opcode::AlterOpen => 15,
            Opcode::AlterClose => 16,
            Opcode::CommuteOpen => 17,
            Opcode::CommuteClose => 18,
            Opcode::Ensure => 19,
            Opcode::SwapOpen => 20,
            Opcode::SwapClose => 21,
            Opcode::Reset => 22,
            Opcode::Send => 23,
            Opcode::Halt => 24,
        }
    }

    /// Which instruction has this byte, if one has.
    pub fn from_byte(byte: u8) -> Option<Opcode>
        ensures { result ≡ nth opcodes byte }
    {
        let opcodes = &OPCODES;
        if byte < 25 {
            Some(opcodes[usize::from(byte)])
        } else {
            None
        }
    }

    /// Which instruction this is.
    pub fn of(instr: Instr) -> Opcode
        ensures { result ≡ opcode_of instr }
    {
        match instr {
            Instr::Const(_) => Opcode::Const,
            Instr::Local(_) => Opcode::Local,
            Instr::Store(_) => Opcode::Store,
            Instr::Pop => Opcode::Pop,
            Instr::Jump(_) => Opcode::Jump,
            Instr::JumpFalse(_) => Opcode::JumpFalse,
            Instr::Core(_, _) => Opcode::Core,
            Instr::Call(_) => Opcode::Call,
            Instr::Return => Opcode::Return,
            Instr::Vector(_) => Opcode::Vector,
            Instr::Print(_) => Opcode::Print,
            Instr::Look(LookForm::Deref) => Opcode::Deref,
            Instr::Look(LookForm::Ensure) => Opcode::Ensure,
            Instr::Put(PutForm::RefSet) => Opcode::RefSet,
            Instr::Put(PutForm::Reset) => Opcode::Reset,
            Instr::TxBegin => Opcode::TxBegin,
            Instr::TxEnd => Opcode::TxEnd,
            Instr::Open(OpenForm::Alter, _) => Opcode::AlterOpen,
            Instr::Open(OpenForm::Commute(_), _) => Opcode::CommuteOpen,
            Instr::Open(OpenForm::Swap(_), _) => Opcode::SwapOpen,
            Instr::Close(UpdateForm::Alter) => Opcode::AlterClose,
            Instr::Close(UpdateForm::Commute) => Opcode::CommuteClose,
            Instr::Close(UpdateForm::Swap) => Opcode::SwapClose,
            Instr::Send(_, _) => Opcode::Send,
            Instr::Halt => Opcode::Halt,
        }
    }
}
