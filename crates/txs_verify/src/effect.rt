//! What instructions do to the depth of the stack and to the number of open transactions.

ghost use Rattle.std.specs.Prelude.{◌≡◌, ◌<◌, ◌≤◌};
ghost use Rattle.txs_code_meaning.specs.PlainCode.{parameters_of};
ghost use Rattle.txs_value_data.specs.Places.{nth};
ghost use Rattle.txs_verify.specs.Paths.{depth_behind, or_none, wants, MayEnd, txs_behind};

use txs_code_meaning::{Body, Instr};

/// How many parameters a function has; 0 of one that isn't there.
fn parameters(functions: &[Body], f: u16) -> usize
    ensures { result ≡ or_none (nth (parameters_of functions.now) f) }
{
    let f = usize::from(f);
    if f < functions.len() {
        return usize::from(functions[f].parameters());
    }
    0
}

/// How many values an instruction finds on the stack at least.
pub(crate) fn wants(functions: &[Body], instr: Instr) -> usize
    ensures { result ≡ wants (parameters_of functions.now) instr }
{
    match instr {
        Instr::Const(_)
        | Instr::Local(_)
        | Instr::Jump(_)
        | Instr::Return
        | Instr::TxBegin
        | Instr::TxEnd
        | Instr::Halt => 0,
        Instr::Store(_) | Instr::Pop | Instr::JumpFalse(_) | Instr::Look(_) => 1,
        Instr::Put(_) | Instr::Close(_) => 2,
        Instr::Core(_, n) | Instr::Vector(n) | Instr::Print(n) => usize::from(n),
        Instr::Open(_, n) | Instr::Send(_, n) => usize::from(n) + 1,
        Instr::Call(f) => parameters(functions, f),
    }
}

/// How many values are there behind an instruction.
pub(crate) fn depth_behind(functions: &[Body], instr: Instr, depth: usize) -> usize
    requires enough { wants (parameters_of functions.now) instr ≤ depth }
    requires low { depth < 4294967295 }
    ensures { result ≡ depth_behind (parameters_of functions.now) instr depth }
{
    match instr {
        Instr::Const(_) | Instr::Local(_) | Instr::Open(_, _) => depth + 1,
        Instr::Store(_) | Instr::Pop | Instr::JumpFalse(_) | Instr::Put(_) | Instr::Close(_) => {
            depth - 1
        }
        Instr::Jump(_)
        | Instr::Return
        | Instr::Look(_)
        | Instr::TxBegin
        | Instr::TxEnd
        | Instr::Halt => depth,
        Instr::Core(_, n) | Instr::Vector(n) | Instr::Print(n) => depth - usize::from(n) + 1,
        Instr::Send(_, n) => depth - usize::from(n),
        Instr::Call(f) => depth - parameters(functions, f) + 1,
    }
}

/// How many transactions are open behind an instruction.
pub(crate) fn txs_behind(instr: Instr, txs: usize) -> usize
    requires end { MayEnd instr txs }
    requires low { txs < 4294967295 }
    ensures { result ≡ txs_behind instr txs }
{
    match instr {
        Instr::TxBegin => txs + 1,
        Instr::TxEnd => txs - 1,
        _ => txs,
    }
}
