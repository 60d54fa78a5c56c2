//! From the bytes of a script to its program and code.

ghost use Rattle.std.specs.Prelude.{◌≡◌, IfOk, IfErr};
ghost use Rattle.txs_code_decode.specs.CodeForm.{HasForm};
ghost use Rattle.txs_check.specs.Refused.{CheckStops};
ghost use Rattle.txs_code_meaning.specs.OwnCells.{NamesOwnCells};
ghost use Rattle.txs_code_meaning.specs.PlainCode.{library_of};
ghost use Rattle.txs_opt.specs.Optimised.{optimised};
ghost use Rattle.txs_theorem_threads.specs.FollowsAgent.{FollowsAgents};
ghost use Rattle.txs_theorem_threads.specs.FollowsAll.{FollowsAll};
ghost use Rattle.txs_theorem_threads.specs.Sends.{CodesSendSound, AgentsSendSound};
ghost use Rattle.txs_gen.specs.Generated.{IsCodeOf};
ghost use Rattle.txs_gen.specs.OwnCells.{ProgramNamesOwnCells};
ghost use Rattle.txs_reader.specs.Script.{Reads};
ghost use Rattle.txs_reader.specs.Tree.{trees};
ghost use Rattle.txs_resolve.specs.Names.{Resolves, ResolveStops};
ghost use Rattle.txs_tree_meaning.specs.Marked.{Exactly, ProgramMarkedBy};
ghost use Rattle.txs_tree_meaning.specs.Sound.{Sound};
ghost use Rattle.txs_tree_meaning.specs.View.{program_of};
ghost use Rattle.txs_value_data.specs.Limits.{most_nodes};
ghost use Rattle.txs_compile.specs.Compiled.{IsProgramOf, IsRefusal, codes_of};

use crate::byte_form::code_of_script_has_form;
use crate::compile_error::CompileError;
use crate::{optimised_code_follows, optimised_code_follows_agents};
use std::alloc::Global;
use txs_check::{CheckErrorKind, check};
use txs_code_meaning::Verified;
use txs_gen::follows::{
    code_of_actions_behaves, code_of_program_behaves, code_of_program_sends_sound,
};
use txs_gen::generate;
use txs_opt::optimised_copy;
use txs_reader::{Form, ReadErrorKind, read_script};
use txs_resolve::law::resolved_is_marked;
use txs_resolve::{ResolveErrorKind, resolve};
use txs_tree_meaning::{Program, Raw};
use txs_value_data::limits::MOST_NODES;

/// The forms of a script.
fn forms_of(alloc: Global, bytes: &[u8]) -> Result<Vec<Form>, CompileError>
    ensures ok { IfOk result (λ forms. Reads bytes.now (trees forms.items)) }
    ensures err { IfErr result (λ e. IsRefusal bytes.now e) }
{
    match read_script(alloc, bytes) {
        Ok(forms) => Ok(forms),
        Err(e) => match e.kind {
            ReadErrorKind::Memory => Err(CompileError::Memory),
            _ => Err(CompileError::Read(e)),
        },
    }
}

/// The program whose names these forms resolve to.
fn raw_of(alloc: Global, bytes: &[u8], forms: &[Form]) -> Result<Raw, CompileError>
    requires { Reads bytes.now (trees forms.now) }
    ensures ok { IfOk result (λ raw. Resolves (trees forms.now) (program_of raw)) }
    ensures err { IfErr result (λ e. IsRefusal bytes.now e) }
{
    match resolve(alloc, forms) {
        Ok(raw) => Ok(raw),
        Err(e) => match e.kind {
            ResolveErrorKind::Memory => Err(CompileError::Memory),
            _ => Err(CompileError::Resolve(e)),
        },
    }
}

/// The program that these forms are.
fn program_of_forms(alloc: Global, bytes: &[u8], forms: &[Form]) -> Result<Program, CompileError>
    requires { Reads bytes.now (trees forms.now) }
    ensures ok { IfOk result (λ p. IsProgramOf bytes.now (program_of p)) }
    ensures own_cells { IfOk result (λ p. ProgramNamesOwnCells (program_of p)) }
    ensures err { IfErr result (λ e. IsRefusal bytes.now e) }
{
    let raw = raw_of(alloc, bytes, forms)?;
    match check(alloc, raw) {
        Ok(program) => Ok(program),
        Err((_raw, e)) => match e.kind {
            CheckErrorKind::Memory => Err(CompileError::Memory),
            _ => Err(CompileError::Check(e)),
        },
    }
}

/// Compiles a script: its program, and code that follows it, which is that of the program optimised. The program is the one from
/// before it is optimised.
///
/// # Errors
/// `Read` where the script isn't read, with the first refusal from left to right; `Resolve` where its names don't resolve,
/// and `Check` where its program isn't sound, each with the first reason in source order; `Memory` where
/// there was no memory for one of them.
pub fn compile(alloc: Global, bytes: &[u8]) -> Result<(Program, Verified), CompileError>
    ensures program { IfOk result (λ c. IsProgramOf bytes.now (program_of c.0)) }
    ensures marked { IfOk result (λ c. ProgramMarkedBy Exactly (program_of c.0)) }
    ensures generated { IfOk result (λ c. IsCodeOf c.1 (optimised most_nodes (program_of c.0))) }
    ensures code { IfOk result (λ c. FollowsAll (codes_of c.1) (program_of c.0)) }
    ensures agents { IfOk result (λ c. FollowsAgents (library_of c.1) (program_of c.0).cells (program_of c.0).functions) }
    ensures sends { IfOk result (λ c. CodesSendSound (program_of c.0).functions (codes_of c.1) × AgentsSendSound (program_of c.0).functions (library_of c.1)) }
    ensures cells { IfOk result (λ c. c.1.cells ≡ c.0.cells) }
    ensures own_cells { IfOk result (λ c. NamesOwnCells c.1) }
    ensures form { IfOk result (λ c. HasForm c.1) }
    ensures refused { IfErr result (λ e. IsRefusal bytes.now e) }
{
    let forms = forms_of(alloc, bytes)?;
    let program = program_of_forms(alloc, bytes, forms.as_slice())?;
    let improved = optimised_copy(alloc, &program, MOST_NODES)?;
    let verified = generate(alloc, &improved)?;
    // Laws and steps that the proof uses; they do nothing when they run.
    let _rooms = verified.rooms();
    resolved_is_marked();
    code_of_program_behaves();
    optimised_code_follows();
    code_of_actions_behaves();
    optimised_code_follows_agents();
    code_of_program_sends_sound();
    code_of_script_has_form();
    Ok((program, verified))
}
