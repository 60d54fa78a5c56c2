//! The verifier: looks at all bodies of code.

ghost use Rattle.std.specs.Prelude.{◌≡◌, ◌<◌, ◌≤◌, ◌+◌, ℕ, List, [], length, true, false, IfOk, IfErr, OnOk, Some};
ghost use Rattle.txs_code_meaning.specs.PlainCode.{CodeBody, parameters_of};
ghost use Rattle.txs_code_meaning.specs.WellTyped.{WellTyped};
ghost use Rattle.txs_code_meaning.specs.declared.instr.Instr.{Instr as AnInstr};
ghost use Rattle.txs_value_data.specs.Places.{nth};
ghost use Rattle.txs_value_cell.specs.Cells.{validators_of};
ghost use Rattle.txs_verify.specs.Validators.{EachValidator, IsPure};
ghost use Rattle.txs_verify.specs.Alone.{IsRight, IsRightBody, IsWrongAlone};
ghost use Rattle.txs_verify.specs.Going.{AllJumpWithin};
ghost use Rattle.txs_verify.specs.Marks.{mark_at};
ghost use Rattle.txs_verify.specs.Verdict.{AreKinds, AreRightBodies, AreWalked, AreWalkedThreads, AreLeastRooms, BodyInForm, IsInForm, IsRefused, IsRefusedAlone, IsIllTyped, IsRefusedBehind, IsRefusedFunction, IsRefusedOnPaths, IsRefusedWalk, IsLeastRoom, IsRoomFor, IsWalked, IsWrongOnPaths, OrMemory, callable, name_of, stopped};
ghost use Rattle.txs_verify.specs.Walk.{WhereRefused};
ghost use Rattle.txs_verify.specs.declared.error.VerifyErrorKind.TheVariants as kind;
ghost use Rattle.txs_verify.specs.declared.walk.Mark.{Mark as AMark};

use crate::alone::look_alone;
use crate::error::{BodyName, Refusal, Stop, VerifyError, VerifyErrorKind};
use crate::standing::{Kind, look_over};
use crate::validators::{look_at_counts, look_at_purity};
use crate::walk::{Mark, mark_places};
use std::alloc::Global;
use txs_code_meaning::{Body, Code, Instr};
use txs_value_cell::CellDefinition;

/// How many values the stack of each function and of each thread needs at most.
#[derive(Drop)]
pub struct Rooms {
    pub functions: Vec<u32>,
    pub threads: Vec<u32>,
}

/// The name of a body.
fn name_of(thread: bool, n: usize) -> BodyName
    ensures { result ≡ name_of thread n }
{
    if thread {
        return BodyName::Thread(n);
    }
    BodyName::Function(n)
}

/// The error that a stop is, of a body.
fn stopped(thread: bool, n: usize, stop: Stop) -> VerifyError
    ensures { result ≡ stopped thread n stop }
{
    let body = name_of(thread, n);
    match stop {
        Stop::Refused(refusal) => VerifyError {
            kind: refusal.kind,
            body,
            at: refusal.at,
        },
        Stop::Memory => VerifyError {
            kind: VerifyErrorKind::Memory,
            body,
            at: 0,
        },
    }
}

/// How many functions a body may call, of so many.
fn callable(thread: bool, all: usize, n: usize) -> usize
    ensures { result ≡ callable thread all n }
{
    if thread {
        return all;
    }
    n
}

/// Looks at the instructions of a body, each alone.
fn look_at_body(
    functions: &[Body],
    thread: bool,
    bodies: &[Body],
    n: usize,
) -> Result<(), VerifyError>
    requires place { n < length bodies.now }
    requires few { (b : CodeBody) → nth bodies.now n ≡ Some b → length b.instrs < 4294967295 }
    ensures right { OnOk result ((b : CodeBody) → nth bodies.now n ≡ Some b → IsRightBody (callable thread (length functions.now) n) (parameters_of functions.now) b) }
    ensures wrong { IfErr result (λ e. (b : CodeBody) → nth bodies.now n ≡ Some b → IsWrongAlone (callable thread (length functions.now) n) (parameters_of functions.now) b e.kind e.at) }
    ensures first { IfErr result (λ e. (b : CodeBody) → nth bodies.now n ≡ Some b → (at : ℕ) (i : AnInstr) → at < e.at → nth b.instrs at ≡ Some i → IsRight (callable thread (length functions.now) n) (parameters_of functions.now) b at i) }
    ensures name { IfErr result (λ e. e.body ≡ name_of thread n) }
{
    let callable = callable(thread, functions.len(), n);
    match look_alone(functions, callable, &bodies[n]) {
        Ok(()) => Ok(()),
        Err(refusal) => Err(stopped(thread, n, Stop::Refused(refusal))),
    }
}

/// Looks at the instructions of functions or of threads, each alone.
fn look_at_bodies(functions: &[Body], thread: bool, bodies: &[Body]) -> Result<(), VerifyError>
    requires { (n : ℕ) (b : CodeBody) → nth bodies.now n ≡ Some b → length b.instrs < 4294967295 }
    ensures right { OnOk result (AreRightBodies thread functions.now bodies.now (length bodies.now)) }
    ensures wrong { IfErr result (λ e. IsRefusedAlone thread functions.now bodies.now e) }
{
    for n in 0..bodies.len() {
        look_at_body(functions, thread, bodies, n)?;
    }
    Ok(())
}

/// The greater of a room and of what is on the stack at a place.
fn higher(room: u32, here: Option<Mark>) -> u32
    requires { (m : AMark) → here ≡ Some m → m.depth < 4294967295 }
    ensures kept { room ≤ result }
    ensures roomy { (m : AMark) → here ≡ Some m → m.depth ≤ result }
    ensures least { (other : ℕ) → room ≤ other → ((m : AMark) → here ≡ Some m → m.depth ≤ other) → result ≤ other }
{
    match here {
        Some(mark) => {
            let depth = mark.depth as u32;
            let is_more = room < depth;
            if is_more { depth } else { room }
        }
        None => room,
    }
}

/// Room for what is on the stack at each marked place.
fn room_for(marks: &[Option<Mark>]) -> u32
    requires { (p : ℕ) (m : AMark) → mark_at marks.now p ≡ Some m → m.depth < 4294967295 }
    ensures roomy { IsRoomFor marks.now result }
    ensures least { IsLeastRoom marks.now result }
{
    let mut room = 0;
    for at in 0..marks.len() {
        let here = marks[at];
        room = higher(room, here);
    }
    room
}

/// Looks at the paths of a body, where functions before it are of these kinds: what it is for, and how much room it needs.
fn walk_body(
    alloc: Global,
    functions: &[Body],
    kinds: &[Kind],
    thread: bool,
    instrs: &[Instr],
) -> Result<(Kind, u32), Stop>
    requires few { length instrs.now < 4294967295 }
    requires jumps { AllJumpWithin instrs.now }
    ensures walked { IfOk result (λ r. IsWalked kinds.now thread (parameters_of functions.now) instrs.now r.0 r.1) }
    ensures wrong { IfErr result (λ stop. WhereRefused (λ r. IsWrongOnPaths kinds.now thread (parameters_of functions.now) instrs.now r.kind r.at) stop) }
{
    let marks = mark_places(alloc, functions, instrs)?;
    let places = marks.as_slice();
    match look_over(kinds, thread, instrs, places) {
        Ok(kind) => Ok((kind, room_for(places))),
        Err(refusal) => Err(Stop::Refused(refusal)),
    }
}

/// Looks at the paths of a function, and adds its kind and its room to those of the functions before it.
fn add_function(
    alloc: Global,
    functions: &[Body],
    kinds: &mut Vec<Kind>,
    rooms: &mut Vec<u32>,
    n: usize,
) -> Result<(), Stop>
    requires place { n < length functions.now }
    requires many { length kinds.old.items ≡ n }
    requires right { (b : CodeBody) → nth functions.now n ≡ Some b → IsRightBody n (parameters_of functions.now) b }
    requires few { (b : CodeBody) → nth functions.now n ≡ Some b → length b.instrs < 4294967295 }
    requires walked { AreWalked (parameters_of functions.now) functions.now kinds.old.items rooms.old.items }
    ensures walked { OnOk result (AreWalked (parameters_of functions.now) functions.now kinds.new.items rooms.new.items) }
    ensures many { OnOk result (length kinds.new.items ≡ n + 1) }
    ensures wrong { IfErr result (λ stop. WhereRefused (λ r. (b : CodeBody) → nth functions.now n ≡ Some b → IsWrongOnPaths kinds.old.items false (parameters_of functions.now) b.instrs r.kind r.at) stop) }
    ensures kept { IfErr result (λ stop. WhereRefused (λ r. kinds.new.items ≡ kinds.old.items) stop) }
{
    let body = &functions[n];
    let (kind, room) = walk_body(alloc, functions, kinds.as_slice(), false, body.instrs())?;
    kinds.push(kind)?;
    rooms.push(room)?;
    Ok(())
}

/// Looks at the paths of a thread, and adds its room to those of the threads before it.
fn add_thread(
    alloc: Global,
    functions: &[Body],
    kinds: &[Kind],
    threads: &[Body],
    rooms: &mut Vec<u32>,
    n: usize,
) -> Result<(), Stop>
    requires place { n < length threads.now }
    requires many { length rooms.old.items ≡ n }
    requires right { (b : CodeBody) → nth threads.now n ≡ Some b → IsRightBody (length functions.now) (parameters_of functions.now) b }
    requires few { (b : CodeBody) → nth threads.now n ≡ Some b → length b.instrs < 4294967295 }
    requires walked { AreWalkedThreads kinds.now (parameters_of functions.now) threads.now rooms.old.items }
    ensures walked { OnOk result (AreWalkedThreads kinds.now (parameters_of functions.now) threads.now rooms.new.items) }
    ensures many { OnOk result (length rooms.new.items ≡ n + 1) }
    ensures wrong { IfErr result (λ stop. WhereRefused (λ r. (b : CodeBody) → nth threads.now n ≡ Some b → IsWrongOnPaths kinds.now true (parameters_of functions.now) b.instrs r.kind r.at) stop) }
{
    let body = &threads[n];
    let (_, room) = walk_body(alloc, functions, kinds, true, body.instrs())?;
    rooms.push(room)?;
    Ok(())
}

/// The same, with the error of the whole code.
fn function_at(
    alloc: Global,
    functions: &[Body],
    kinds: &mut Vec<Kind>,
    rooms: &mut Vec<u32>,
    n: usize,
) -> Result<(), VerifyError>
    requires place { n < length functions.now }
    requires many { length kinds.old.items ≡ n }
    requires right { AreRightBodies false functions.now functions.now (length functions.now) }
    requires few { (n : ℕ) (b : CodeBody) → nth functions.now n ≡ Some b → length b.instrs < 4294967295 }
    requires walked { AreWalked (parameters_of functions.now) functions.now kinds.old.items rooms.old.items }
    ensures walked { OnOk result (AreWalked (parameters_of functions.now) functions.now kinds.new.items rooms.new.items) }
    ensures many { OnOk result (length kinds.new.items ≡ n + 1) }
    ensures wrong { IfErr result (λ e. OrMemory e.kind ((r : IsRefusedOnPaths kinds.old.items false (parameters_of functions.now) functions.now e) × (r.number ≡ n))) }
    ensures kept { IfErr result (λ e. OrMemory e.kind (kinds.new.items ≡ kinds.old.items)) }
{
    match add_function(alloc, functions, kinds, rooms, n) {
        Ok(()) => Ok(()),
        Err(stop) => Err(stopped(false, n, stop)),
    }
}

/// Looks at the paths of all functions: what they are for, and how much room they need.
fn walk_functions(
    alloc: Global,
    functions: &[Body],
    kinds: &mut Vec<Kind>,
    rooms: &mut Vec<u32>,
) -> Result<(), VerifyError>
    requires none { kinds.old.items ≡ [] }
    requires no_rooms { rooms.old.items ≡ [] }
    requires right { AreRightBodies false functions.now functions.now (length functions.now) }
    requires few { (n : ℕ) (b : CodeBody) → nth functions.now n ≡ Some b → length b.instrs < 4294967295 }
    ensures walked { OnOk result (AreWalked (parameters_of functions.now) functions.now kinds.new.items rooms.new.items) }
    ensures many { OnOk result (length kinds.new.items ≡ length functions.now) }
    ensures wrong { IfErr result (λ e. OrMemory e.kind (IsRefusedBehind functions.now kinds.new.items e)) }
{
    for n in 0..functions.len() {
        function_at(alloc, functions, kinds, rooms, n)?;
    }
    Ok(())
}

/// What is told where a function is refused: the first validator that isn't pure, by what the functions before it are for, or else the
/// function.
fn first_refusal(kinds: &[Kind], cells: &[CellDefinition], refused: VerifyError) -> VerifyError
    ensures refused { (fs : List CodeBody) → OrMemory refused.kind (IsRefusedBehind fs kinds.now refused) → OrMemory result.kind (IsRefusedWalk fs (validators_of cells.now) result) }
    // It needs no memory.
    ensures whole { result.kind ≡ kind.Memory → refused.kind ≡ kind.Memory }
{
    if refused.kind == VerifyErrorKind::Memory {
        return refused;
    }
    match look_at_purity(kinds, cells) {
        Ok(()) => refused,
        Err(impure) => impure,
    }
}

/// Looks at the paths of all functions, and at whether validators are pure.
fn walk_with_validators(
    alloc: Global,
    functions: &[Body],
    cells: &[CellDefinition],
    kinds: &mut Vec<Kind>,
    rooms: &mut Vec<u32>,
) -> Result<(), VerifyError>
    requires none { kinds.old.items ≡ [] }
    requires no_rooms { rooms.old.items ≡ [] }
    requires right { AreRightBodies false functions.now functions.now (length functions.now) }
    requires few { (n : ℕ) (b : CodeBody) → nth functions.now n ≡ Some b → length b.instrs < 4294967295 }
    ensures walked { OnOk result (AreWalked (parameters_of functions.now) functions.now kinds.new.items rooms.new.items) }
    ensures many { OnOk result (length kinds.new.items ≡ length functions.now) }
    ensures pure { OnOk result (EachValidator (IsPure kinds.new.items) (validators_of cells.now)) }
    ensures wrong { IfErr result (λ e. OrMemory e.kind (IsRefusedWalk functions.now (validators_of cells.now) e)) }
{
    match walk_functions(alloc, functions, kinds, rooms) {
        Ok(()) => look_at_purity(kinds.as_slice(), cells),
        Err(refused) => Err(first_refusal(kinds.as_slice(), cells, refused)),
    }
}

/// Looks at the paths of a thread.
fn thread_at(
    alloc: Global,
    functions: &[Body],
    kinds: &[Kind],
    threads: &[Body],
    rooms: &mut Vec<u32>,
    n: usize,
) -> Result<(), VerifyError>
    requires place { n < length threads.now }
    requires many { length rooms.old.items ≡ n }
    requires right { AreRightBodies true functions.now threads.now (length threads.now) }
    requires few { (n : ℕ) (b : CodeBody) → nth threads.now n ≡ Some b → length b.instrs < 4294967295 }
    requires walked { AreWalkedThreads kinds.now (parameters_of functions.now) threads.now rooms.old.items }
    ensures walked { OnOk result (AreWalkedThreads kinds.now (parameters_of functions.now) threads.now rooms.new.items) }
    ensures many { OnOk result (length rooms.new.items ≡ n + 1) }
    ensures wrong { IfErr result (λ e. OrMemory e.kind (IsRefusedOnPaths kinds.now true (parameters_of functions.now) threads.now e)) }
{
    match add_thread(alloc, functions, kinds, threads, rooms, n) {
        Ok(()) => Ok(()),
        Err(stop) => Err(stopped(true, n, stop)),
    }
}

/// Looks at the paths of all threads: how much room they need.
fn walk_threads(
    alloc: Global,
    functions: &[Body],
    kinds: &[Kind],
    threads: &[Body],
    rooms: &mut Vec<u32>,
) -> Result<(), VerifyError>
    requires no_rooms { rooms.old.items ≡ [] }
    requires right { AreRightBodies true functions.now threads.now (length threads.now) }
    requires few { (n : ℕ) (b : CodeBody) → nth threads.now n ≡ Some b → length b.instrs < 4294967295 }
    ensures walked { OnOk result (AreWalkedThreads kinds.now (parameters_of functions.now) threads.now rooms.new.items) }
    ensures many { OnOk result (length rooms.new.items ≡ length threads.now) }
    ensures wrong { IfErr result (λ e. OrMemory e.kind (IsRefusedOnPaths kinds.now true (parameters_of functions.now) threads.now e)) }
{
    for n in 0..threads.len() {
        thread_at(alloc, functions, kinds, threads, rooms, n)?;
    }
    Ok(())
}

/// Looks at what validators take; at all instructions alone, in functions and then in threads; at the paths of functions, and whether
/// validators are pure; and at the paths of threads. Code is well
/// typed with the rooms that it answers, and with none that are less, or it is refused for what is true of it, or there was no memory.
pub fn verify_code(alloc: Global, code: &Code) -> Result<Rooms, VerifyError>
    requires { IsInForm code.now }
    ensures typed { IfOk result (λ rooms. WellTyped code.now rooms.functions.items rooms.threads.items) }
    ensures least { IfOk result (λ rooms. AreLeastRooms code.now rooms.functions.items rooms.threads.items) }
    ensures refused { IfErr result (λ e. OrMemory e.kind (IsRefused code.now e)) }
    // No refused code is well typed.
    ensures ill_typed { IfErr result (λ e. OrMemory e.kind (IsIllTyped code.now)) }
{
    let cells = code.cells();
    let functions = code.functions();
    let threads = code.threads();
    look_at_counts(functions, cells)?;
    look_at_bodies(functions, false, functions)?;
    look_at_bodies(functions, true, threads)?;
    let mut kinds = Vec::new(alloc);
    let mut function_rooms = Vec::new(alloc);
    walk_with_validators(alloc, functions, cells, &mut kinds, &mut function_rooms)?;
    let mut thread_rooms = Vec::new(alloc);
    walk_threads(
        alloc,
        functions,
        kinds.as_slice(),
        threads,
        &mut thread_rooms,
    )?;
    Ok(Rooms {
        functions: function_rooms,
        threads: thread_rooms,
    })
}

/// The same of code by value, which comes back with its rooms or with the refusal.
pub fn verify(alloc: Global, code: Code) -> Result<(Code, Rooms), (Code, VerifyError)>
    requires { IsInForm code }
    ensures typed { IfOk result (λ r. WellTyped code r.1.functions.items r.1.threads.items) }
    ensures least { IfOk result (λ r. AreLeastRooms code r.1.functions.items r.1.threads.items) }
    ensures kept { IfOk result (λ r. r.0 ≡ code) }
    ensures refused { IfErr result (λ r. OrMemory r.1.kind (IsRefused code r.1)) }
    ensures ill_typed { IfErr result (λ r. OrMemory r.1.kind (IsIllTyped code)) }
    ensures handed_back { IfErr result (λ r. r.0 ≡ code) }
{
    match verify_code(alloc, &code) {
        Ok(rooms) => Ok((code, rooms)),
        Err(error) => Err((code, error)),
    }
}
