//! The names that a listing has for kinds of cells and for instructions.

ghost use Rattle.std.specs.Prelude.{◌≡◌};
ghost use Rattle.txs_disasm.specs.Listing.{instr_name, kind_name, mode_words};

use txs_code_meaning::{Instr, OpenForm};
use txs_value_cell::{ErrorMode, LookForm, PutForm, UpdateForm};
use txs_value_data::CellKind;

/// The name of a kind of cells.
pub(crate) fn kind_name(kind: CellKind) -> &'static [u8]
    ensures { result.now ≡ kind_name kind }
{
    match kind {
        CellKind::Ref => b"ref",
        CellKind::Atom => b"atom",
        CellKind::Agent => b"agent",
    }
}

/// What stands behind a cell's opening value, of its error mode.
pub(crate) fn mode_words(mode: ErrorMode) -> &'static [u8]
    ensures { result.now ≡ mode_words mode }
{
    match mode {
        ErrorMode::Fail => b"",
        ErrorMode::Continue => b" continue",
    }
}

/// The name of an instruction.
pub(crate) fn instr_name(instr: Instr) -> &'static [u8]
    ensures { result.now ≡ instr_name instr }
{
    match instr {
        Instr::Const(_) => b"const",
        Instr::Local(_) => b"local",
        Instr::Store(_) => b"store",
        Instr::Pop => b"pop",
        Instr::Jump(_) => b"jump",
        Instr::JumpFalse(_) => b"jump_false",
        Instr::Core(_, _) => b"core",
        Instr::Call(_) => b"call",
        Instr::Return => b"return",
        Instr::Vector(_) => b"vector",
        Instr::Print(_) => b"print",
        Instr::Look(LookForm::Deref) => b"deref",
        Instr::Look(LookForm::Ensure) => b"ensure",
        Instr::Put(PutForm::RefSet) => b"ref_set",
        Instr::Put(PutForm::Reset) => b"reset",
        Instr::TxBegin => b"tx_begin",
        Instr::TxEnd => b"tx_end",
        Instr::Open(OpenForm::Alter, _) => b"alter_open",
        Instr::Open(OpenForm::Commute(_), _) => b"commute_open",
        Instr::Open(OpenForm::Swap(_), _) => b"swap_open",
        Instr::Close(UpdateForm::Alter) => b"alter_close",
        Instr::Close(UpdateForm::Commute) => b"commute_close",
        Instr::Close(UpdateForm::Swap) => b"swap_close",
        Instr::Send(_, _) => b"send",
        Instr::Halt => b"halt",
    }
}
