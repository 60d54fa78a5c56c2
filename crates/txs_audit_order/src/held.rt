//! Whether a transaction set or ensured what it read: that is what covers it.

ghost use Rattle.std.specs.Prelude.{◌≡◌, true};
ghost use Rattle.txs_frame.specs.Frame.{has_number};
ghost use Rattle.txs_theorem_serial.specs.Serial.{are_held};
ghost use Rattle.txs_audit_order.specs.Held.{is_among};

use txs_frame::TxFrame;
use txs_value_data::CellId;

/// Whether the ref with this number is among these.
fn has_number(refs: &[CellId], number: u16) -> bool
    ensures { result ≡ has_number refs.now number }
{
    for cell in refs {
        if cell.number == number {
            return true;
        }
    }
    false
}

/// The index of the first of these refs, from this one on, whose number is no less.
fn seek(refs: &[CellId], from: usize, number: u16) -> usize {
    for at in from..refs.len() {
        if refs[at].number >= number {
            return at;
        }
    }
    refs.len()
}

/// Whether the ref at this index has this number.
fn is_at(refs: &[CellId], at: usize, number: u16) -> bool
    ensures { result ≡ true → has_number refs.now number ≡ true }
{
    if at >= refs.len() {
        return false;
    }
    refs[at].number == number
}

/// Whether the ref with this number is among those that were set or those that were ensured, where it is at these indexes if
/// it is there and their numbers ascend.
fn is_held(sets: &[CellId], set: usize, ensured: &[CellId], ensure: usize, number: u16) -> bool
    ensures { result ≡ is_among sets.now ensured.now number }
{
    if is_at(sets, set, number) {
        return true;
    }
    if is_at(ensured, ensure, number) {
        return true;
    }
    if has_number(sets, number) {
        return true;
    }
    has_number(ensured, number)
}

/// Whether each of these refs was set or ensured. All three lists have ascending numbers, so that one pass finds it.
pub fn are_held(done: &TxFrame, sets: &[CellId], reads: &[CellId]) -> bool
    requires { sets.now ≡ done.now.sets }
    ensures { result ≡ are_held done.now reads.now }
{
    let ensured = done.ensured();
    let mut set = 0;
    let mut ensure = 0;
    for read in reads {
        set = seek(sets, set, read.number);
        ensure = seek(ensured, ensure, read.number);
        if !is_held(sets, set, ensured, ensure, read.number) {
            return false;
        }
    }
    true
}
