//! The code of a program.

ghost use Rattle.std.specs.Prelude.{◌≡◌, ◌+◌, ◌≤◌, length, IfOk};
ghost use Rattle.txs_tree_meaning.specs.Sound.{nodes, nodes_of_functions, nodes_of_all};
ghost use Rattle.txs_tree_meaning.specs.View.{tree_of, functions_of, threads_of, program_of};
ghost use Rattle.txs_code_meaning.specs.declared.instr.Instr.TheVariants.{Return, Halt};
ghost use Rattle.txs_gen.specs.Bodies.{finished, AreSoundFunctions, AreSoundThreads, AreFunctionsMade, AreThreadsMade};
ghost use Rattle.txs_gen.specs.Emission.{emission, IsPlaced};
ghost use Rattle.txs_gen.specs.Generated.{IsCodeOf};
ghost use Rattle.txs_gen.specs.OwnCells.{ProgramNamesOwnCells};

use crate::emit::{Around, Emitter, emit};
use std::alloc::{AllocError, Global};
use txs_code_meaning::{Body, Code, Instr, Verified};
use txs_tree_meaning::{Function, Node, Program, Thread};
use txs_value_cell::copy_cells;
use txs_value_data::{Span, Value};

/// Constants, and bodies that push them, with how many values each has on the stack at most.
#[derive(Drop)]
struct Bodies {
    constants: Vec<Value>,
    bodies: Vec<Body>,
    rooms: Vec<u32>,
}

/// The code of a program, well typed: for each function, and then for each thread, in script order, the
/// instructions of its body and then a return or a halt; for each instruction the span of the node that it
/// is made for, for a return that of the definition, and for a halt that of the future; the constants, each
/// with an entry of its own, in the order of the code; and the cells.
///
/// # Errors
///
/// `AllocError` where there is no memory for the code.
pub fn generate(alloc: Global, program: &Program) -> Result<Verified, AllocError>
    requires { ProgramNamesOwnCells (program_of program.now) }
    ensures { IfOk result (λ code. IsCodeOf code (program_of program.now)) }
{
    let cells = copy_cells(alloc, program.cells())?;
    let threads = program.threads();
    let of_functions = functions_code(alloc, program.functions())?;
    let of_threads = threads_code(alloc, of_functions.constants, threads)?;
    let code = Code::new(
        cells,
        of_threads.constants,
        of_functions.bodies,
        of_threads.bodies,
    );
    Verified::seal(alloc, code, of_functions.rooms, of_threads.rooms)
}

/// The code of functions.
fn functions_code(alloc: Global, functions: &[Function]) -> Result<Bodies, AllocError>
    requires part { AreSoundFunctions (functions_of functions.now) }
    requires few { nodes_of_functions (functions_of functions.now) ≤ 200000 }
    ensures { IfOk result (λ made. AreFunctionsMade (functions_of functions.now) made.constants.items made.bodies.items made.rooms.items) }
{
    let mut constants = Vec::new(alloc);
    let mut bodies = Vec::new(alloc);
    let mut rooms = Vec::new(alloc);
    for function in functions {
        let parameters = function.parameters;
        let made = body_code(
            alloc,
            constants,
            parameters,
            &function.body,
            Instr::Return,
            function.span,
        )?;
        constants = made.constants;
        bodies.push(Body::new(parameters, made.locals, made.instrs, made.spans))?;
        rooms.push(made.room)?;
    }
    Ok(Bodies {
        constants,
        bodies,
        rooms,
    })
}

/// The code of threads, after these constants.
fn threads_code(alloc: Global, before: Vec<Value>, threads: &[Thread]) -> Result<Bodies, AllocError>
    requires part { AreSoundThreads (threads_of threads.now) }
    requires few { length before.items + nodes_of_all (threads_of threads.now) ≤ 200000 }
    ensures { IfOk result (λ made. AreThreadsMade (threads_of threads.now) before.items made.constants.items made.bodies.items made.rooms.items) }
{
    let mut constants = before;
    let mut bodies = Vec::new(alloc);
    let mut rooms = Vec::new(alloc);
    for thread in threads {
        let made = body_code(alloc, constants, 0, &thread.body, Instr::Halt, thread.span)?;
        constants = made.constants;
        bodies.push(Body::new(0, made.locals, made.instrs, made.spans))?;
        rooms.push(made.room)?;
    }
    Ok(Bodies {
        constants,
        bodies,
        rooms,
    })
}

/// The code of a body with so many parameters, after these constants: its instructions, and then the last one.
fn body_code(
    alloc: Global,
    constants: Vec<Value>,
    parameters: u8,
    body: &Node,
    last: Instr,
    span: Span,
) -> Result<Emitter, AllocError>
    requires part { IsPlaced parameters 0 (tree_of body.now) }
    requires few_constants { length constants.items + nodes (tree_of body.now) ≤ 200000 }
    ensures { IfOk result (λ made. emission made ≡ finished parameters (tree_of body.now) last span constants.items) }
{
    let mut made = Emitter {
        instrs: Vec::new(alloc),
        spans: Vec::new(alloc),
        constants,
        locals: parameters,
        room: 0,
    };
    let outermost = Around {
        depth: parameters,
        height: 0,
        base: 0,
        start: 0,
    };
    emit(&mut made, body, outermost)?;
    made.put(last, span)?;
    Ok(made)
}
