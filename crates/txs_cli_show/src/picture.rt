//! The picture of a run.

ghost use Rattle.std.specs.Prelude.{IfOk, IfSome};
ghost use Rattle.txs_code_decode.specs.CodeForm.{HasForm};
ghost use Rattle.txs_cli_show.specs.Picture.{IsDrawn, IsPictureOf};

use crate::again::run_listed;
use std::alloc::{AllocError, Global};
use txs_cli_timeline::write_timeline;
use txs_code_meaning::Verified;
use txs_compile::{CompileError, compile};

/// The picture of the run of this script's code by this list of plays and then in rounds.
fn draw_code(
    alloc: Global,
    text: &[u8],
    code: &Verified,
    list: &str,
    steps: u64,
) -> Result<Option<Vec<u8>>, AllocError>
    requires form { HasForm code.now }
    ensures { IfOk result (λ o. IfSome o (λ picture. IsPictureOf code.now list.now steps picture.items)) }
{
    let Some(run) = run_listed(alloc, code, list, steps)? else {
        return Ok(None);
    };
    let mut picture = Vec::new(alloc);
    write_timeline(alloc, &mut picture, text, run.of(code))?;
    Ok(Some(picture))
}

/// The picture, as SVG, of the run of a script by this list of plays and then in rounds, in which each actor makes so many steps at most. None where the
/// script is refused, or where the list isn't that of a run.
pub fn draw(
    alloc: Global,
    text: &[u8],
    list: &str,
    steps: u64,
) -> Result<Option<Vec<u8>>, AllocError>
    ensures { IfOk result (λ o. IfSome o (λ picture. IsDrawn text.now list.now steps picture.items)) }
{
    match compile(alloc, text) {
        Ok(compiled) => draw_code(alloc, text, &compiled.1, list, steps),
        Err(CompileError::Memory) => Err(AllocError),
        Err(_) => Ok(None),
    }
}
