//! The last values of cells, and the lists of what an event writes.

ghost use Rattle.std.specs.Prelude.{◌≡◌, ◌≤◌, ◌<◌, ◌++◌, ◌∷◌, [], length, true, Some, option_copied, IfOk, OnOk};
ghost use Rattle.circular_buffer.specs.Buffer.{last_item};
ghost use Rattle.txs_world_book.specs.Book.{cells_in};
ghost use Rattle.txs_world.specs.Kept.{version, slot_of, version_at, open_slots, put_one, put_all, all_below};
ghost use Rattle.txs_world.specs.Store.{are_apart, merged};
ghost use Rattle.txs_world.specs.Places.{place_of, Ascend, is_first};

use circular_buffer::HeapCircularBuffer;
use std::alloc::{AllocError, Global};
use txs_value_data::{CellId, Listed, Value, copy_value};
use txs_world_book::StoreCell;

/// How many values of a cell are kept: the newest, and up to ten older ones.
const MOST_VERSIONS: usize = 11;

/// A value that a cell had, and how many events the book has up to the one that wrote it: 0 where the cell opened with it.
#[derive(Drop)]
pub(crate) struct Version {
    pub(crate) value: Value,
    pub(crate) written: u32,
}

/// The last values of a cell. The newest is at the back.
#[derive(Drop)]
pub(crate) struct Slot {
    pub(crate) ring: HeapCircularBuffer<Version>,
}

impl Slot {
    /// The slot of a cell that opens with this value, which no event has written.
    fn open(alloc: Global, opening: &Value) -> Result<Slot, AllocError>
        ensures { IfOk result (λ s. s ≡ slot_of (version opening.now 0 ∷ [])) }
    {
        let mut ring = HeapCircularBuffer::with_capacity(alloc, MOST_VERSIONS)?;
        let value = copy_value(opening)?;
        drop(ring.push_back(Version { value, written: 0 }));
        Ok(Slot { ring })
    }

    /// The newest version.
    pub(crate) fn newest(&self) -> &Version
        requires { 0 < length self.now.ring.items }
        ensures { last_item self.now.ring.items ≡ Some result.now }
    {
        self.ring.back().unwrap()
    }

    /// The value that the cell had after the first `at` events, if it is still kept.
    pub(crate) fn value_at(&self, at: u32) -> Option<&Value>
        ensures { option_copied result ≡ version_at at self.now.ring.items }
    {
        for newer in 0..self.ring.len() {
            let version = self.ring.nth_back(newer).unwrap();
            if version.written <= at {
                return Some(&version.value);
            }
        }
        None
    }
}

/// The slots of these cells, which no event has written.
pub(crate) fn open_slots(alloc: Global, cells: &[StoreCell]) -> Result<Vec<Slot>, AllocError>
    ensures { IfOk result (λ v. v.items ≡ open_slots cells.now) }
{
    let mut slots = Vec::with_capacity(alloc, cells.len())?;
    for cell in cells {
        let slot = Slot::open(alloc, &cell.opening)?;
        slots.push_reserved(slot);
    }
    Ok(slots)
}

/// Puts the value that an event wrote into the slot of its cell. The event is the last of so many.
#[inline(always)]
fn put_one(slots: &mut Vec<Slot>, cell: CellId, value: Value, written: u32)
    requires { cell.number < length slots.old.items }
    ensures { slots.new.items ≡ put_one written slots.old.items (cell, value) }
{
    let slot = &mut slots[usize::from(cell.number)];
    drop(slot.ring.push_back(Version { value, written }));
}

/// Puts what an event wrote into the slots. The event is the last of so many.
#[inline(always)]
pub(crate) fn put_all(slots: &mut Vec<Slot>, writes: &mut Vec<(CellId, Value)>, events: u32)
    requires { all_below (length slots.old.items) writes.old.items ≡ true }
    ensures { slots.new.items ≡ put_all events slots.old.items writes.old.items }
{
    while let Some((cell, value)) = writes.pop() {
        put_one(slots, cell, value, events);
    }
}

/// Adds the same writes.
pub(crate) fn append(
    copies: &mut Vec<(CellId, Value)>,
    writes: &[(CellId, Value)],
) -> Result<(), AllocError>
    ensures { OnOk result (copies.new.items ≡ copies.old.items ++ writes.now) }
{
    for write in writes {
        push_copy(copies, write.0, &write.1)?;
    }
    Ok(())
}

/// Adds a write of the same value.
#[inline(always)]
pub(crate) fn push_copy(
    copies: &mut Vec<(CellId, Value)>,
    cell: CellId,
    value: &Value,
) -> Result<(), AllocError>
    ensures { OnOk result (copies.new.items ≡ copies.old.items ++ (cell, value.now) ∷ []) }
{
    copies.reserve(1)?;
    copies.push_reserved((cell, copy_value(value)?));
    Ok(())
}

/// How many writes there are before the first whose cell has no lesser number.
pub fn place_for(writes: &[(CellId, Value)], number: u16) -> usize
    ensures place { result ≡ place_of number writes.now }
    ensures within { result ≤ length writes.now }
{
    for (i, write) in writes.iter().enumerate() {
        if write.0.number >= number {
            return i;
        }
    }
    writes.len()
}

/// Whether the first of these writes is of the ref with this number.
fn is_first(writes: &[(CellId, Value)], number: u16) -> bool
    ensures { result ≡ is_first number writes.now }
{
    match writes.first() {
        Some(write) => write.0.number == number,
        None => false,
    }
}

/// Whether none of the refs that were commuted was set. Both lists are gone through once.
pub fn are_apart(commuted: &[(CellId, Value)], sets: &[(CellId, Value)]) -> bool
    requires commuted { Ascend 0 commuted.now }
    requires sets { Ascend 0 sets.now }
    ensures { result ≡ are_apart (cells_in commuted.now) (cells_in sets.now) }
{
    let mut rest = sets;
    for write in commuted {
        let (_, later) = rest.split_at(place_for(rest, write.0.number));
        if is_first(later, write.0.number) {
            return false;
        }
        rest = later;
    }
    true
}

/// What was set, and among it what was commuted, in the order of the refs. Both lists are gone through once.
fn merge(
    joined: &mut Vec<(CellId, Value)>,
    sets: &[(CellId, Value)],
    commuted: &[(CellId, Value)],
) -> Result<(), AllocError>
    requires empty { joined.old.items ≡ [] }
    requires ascend { Ascend 0 commuted.now }
    requires apart { are_apart (cells_in commuted.now) (cells_in sets.now) ≡ true }
    ensures { OnOk result (joined.new.items ≡ merged sets.now commuted.now) }
{
    let mut rest = commuted;
    for write in sets {
        let (earlier, later) = rest.split_at(place_for(rest, write.0.number));
        append(joined, earlier)?;
        push_copy(joined, write.0, &write.1)?;
        rest = later;
    }
    append(joined, rest)
}

/// What a commit writes: what was set, and among it what was commuted.
pub(crate) fn join_writes(
    alloc: Global,
    sets: Listed<(CellId, Value)>,
    commuted: &[(CellId, Value)],
) -> Result<Listed<(CellId, Value)>, AllocError>
    requires ascend { Ascend 0 commuted.now }
    requires apart { are_apart (cells_in commuted.now) (cells_in sets) ≡ true }
    ensures { IfOk result (λ ws. ws ≡ merged sets commuted.now) }
{
    if commuted.is_empty() {
        return Ok(sets);
    }
    let mut joined = Vec::new(alloc);
    match merge(&mut joined, sets.as_slice(), commuted) {
        Ok(()) => {
            drop(sets);
            Ok(Listed::from_vec(joined))
        }
        Err(refused) => {
            drop(sets);
            drop(joined);
            Err(refused)
        }
    }
}
