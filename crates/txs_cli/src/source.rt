//! What a request works on: a script, or code in its byte form. It is read from a stream, and loaded.

ghost use Rattle.std.specs.Prelude.{◌≡◌, ◌++◌, [], codes, Some, None, IfErr, IfOk, IfSome};
ghost use Rattle.txs_cli.specs.Source.{IsLoaded, IsReadOf, IsRefusedBy, OfForm, OfScript, RefusalTells, file_of, script_at, source_of, source_text};
ghost use Rattle.txs_cli_report.specs.Lent.{script_of, text_in, told_of};
ghost use Rattle.txs_cli_report.specs.Told.{IsTold};

use crate::form_stream::read_form;
use crate::lines;
use std::alloc::{AllocError, Global};
use std::io::Read;
use txs_cli_report::explain::Script;
use txs_cli_report::streams::{ReadFault, read_bytes};
use txs_cli_report::told;
use txs_cli_report::told::{Told, UNUSABLE, complaint};
use txs_code_meaning::Verified;
use txs_compile::{CompileError, compile};
use txs_tree_meaning::Program;
use txs_verify::load::load_verified;
use txs_verify::load_error::LoadError;

/// What a request works on.
#[derive(Clone, Copy)]
pub enum Source<'a> {
    /// A script. Its lines are explained under this name, if there is one.
    Script(Option<&'a str>),
    /// Code in its byte form.
    Form,
}

/// Code, with the program of the script that it is compiled from, if it is.
#[derive(Drop)]
pub struct Loaded {
    pub program: Option<Program>,
    pub code: Verified,
}

/// Why a source isn't loaded.
#[derive(Clone, Copy)]
pub enum Refusal {
    Script(CompileError),
    Form(LoadError),
}

impl<'a> Source<'a> {
    /// The name under which lines are explained; those of code in its byte form never are.
    pub(crate) fn file(self) -> Option<&'a str>
        ensures { text_in result ≡ file_of (source_of self.entry) }
    {
        match self {
            Source::Script(file) => file,
            Source::Form => None,
        }
    }

    /// The script of which lines tell, where this is the source's text; code in its byte form has none.
    pub(crate) fn script(self, text: &'a [u8]) -> Script<'a>
        ensures { script_of result ≡ script_at (source_of self.entry) text.now }
    {
        match self {
            Source::Script(file) => Script { text, file },
            Source::Form => Script {
                text: &[],
                file: None,
            },
        }
    }
}

/// The bytes of a source: a script, or as many bytes as may be the beginning of a byte form.
///
/// # Errors
/// As `read_bytes` and `read_form`.
pub(crate) fn read<R: Read>(
    alloc: Global,
    source: Source<'_>,
    reader: &mut R,
) -> Result<Vec<u8>, ReadFault>
    ensures { IfOk result (λ bytes. IfSome (R.remaining reader.old) (λ input. IsReadOf (source_of source.entry) (source_text (source_of source.entry) input) bytes.items)) }
{
    match source {
        Source::Script(_) => read_bytes(alloc, reader),
        Source::Form => read_form(alloc, reader),
    }
}

/// What is told of a stream that couldn't be read. Of want of memory the program tells otherwise.
pub fn unread(alloc: Global, fault: ReadFault) -> Result<Told, AllocError>
    ensures { IfOk result (λ t. IsTold [] (codes "read failed\n") 2 (told_of t)) }
{
    match fault {
        ReadFault::Failed => complaint(alloc, UNUSABLE, "read failed"),
        ReadFault::Memory => Err(AllocError),
    }
}

/// A script's program, and the code that it compiles to.
fn load_script(alloc: Global, text: &[u8]) -> Result<Loaded, Refusal>
    ensures loaded { (file : _) → IfOk result (λ l. IsLoaded (OfScript file) text.now l.program l.code) }
    ensures refused { (file : _) → IfErr result (λ e. IsRefusedBy (OfScript file) text.now e) }
{
    match compile(alloc, text) {
        Ok((program, code)) => Ok(Loaded {
            program: Some(program),
            code,
        }),
        Err(error) => Err(Refusal::Script(error)),
    }
}

/// The code that has this byte form.
fn load_form(alloc: Global, bytes: &[u8]) -> Result<Loaded, Refusal>
    ensures loaded { IfOk result (λ l. IsLoaded OfForm bytes.now l.program l.code) }
    ensures refused { IfErr result (λ e. IsRefusedBy OfForm bytes.now e) }
{
    match load_verified(alloc, bytes) {
        Ok(code) => {
            // Says that the code is well typed; it does nothing when it runs.
            let _rooms = code.rooms();
            Ok(Loaded {
                program: None,
                code,
            })
        }
        Err(error) => Err(Refusal::Form(error)),
    }
}

/// What a source with this text is loaded as.
pub(crate) fn load(alloc: Global, source: Source<'_>, text: &[u8]) -> Result<Loaded, Refusal>
    ensures loaded { IfOk result (λ l. IsLoaded (source_of source.entry) text.now l.program l.code) }
    ensures refused { IfErr result (λ e. IsRefusedBy (source_of source.entry) text.now e) }
{
    match source {
        Source::Script(_) => load_script(alloc, text),
        Source::Form => load_form(alloc, text),
    }
}

/// What is told of a source with this text which is refused so. Of want of memory the program tells otherwise.
pub(crate) fn tell_refusal(
    alloc: Global,
    source: Source<'_>,
    text: &[u8],
    refusal: Refusal,
) -> Result<Told, AllocError>
    requires { IsRefusedBy (source_of source) text.now refusal }
    ensures { IfOk result (λ t. RefusalTells (source_of source.entry) text.now (told_of t)) }
{
    match refusal {
        Refusal::Script(error) => told::refused(alloc, source.script(text), &error),
        Refusal::Form(error) => lines::refused(alloc, error),
    }
}
