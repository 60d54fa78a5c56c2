//! The outcomes that were found, each with the asks that come to it.

ghost use Rattle.std.specs.Prelude.{◌≡◌, ◌++◌, ◌∷◌, [], IfOk, IsTrue, OnOk};
ghost use Rattle.txs_explore.specs.Found.{Adds, HasEnding};
ghost use Rattle.txs_explore.specs.Ways.{as_ending};

use crate::ending::{Ending, same_ending};
use std::alloc::{AllocError, Global};

/// An outcome, and whose asks come to it, one after another: each with all that its actor does up to it.
#[derive(Drop)]
pub struct Way {
    pub ending: Ending,
    pub asks: Vec<u16>,
}

/// What was found so far, and how many asks a search may still make.
#[derive(Drop)]
pub(crate) struct Found {
    pub(crate) ways: Vec<Way>,
    pub(crate) left: u64,
}

/// Whether one of these ways has this ending.
fn is_listed(ways: &[Way], ending: &Ending) -> bool
    ensures { IsTrue result → HasEnding (as_ending ending.now) ways.now }
{
    for way in ways {
        if same_ending(&way.ending, ending) {
            return true;
        }
    }
    false
}

/// The same asks again, and one more behind them.
pub(crate) fn with_ask(alloc: Global, asks: &[u16], k: u16) -> Result<Vec<u16>, AllocError>
    ensures { IfOk result (λ more. more.items ≡ asks.now ++ k ∷ []) }
{
    let mut more = Vec::from_slice(alloc, asks)?;
    more.push(k)?;
    Ok(more)
}

impl Found {
    /// So many asks were made, and one more was looked for.
    pub(crate) fn spend(&mut self, asks: usize)
        ensures { self.new.ways.items ≡ self.old.ways.items }
    {
        self.left = self.left.saturating_sub(asks as u64).saturating_sub(1);
    }

    /// Lists the way to this ending, unless there is one of the same ending.
    pub(crate) fn add(
        &mut self,
        alloc: Global,
        ending: Ending,
        asks: &[u16],
    ) -> Result<(), AllocError>
        ensures { OnOk result (Adds ending asks.now self.old.ways.items self.new.ways.items) }
    {
        if is_listed(self.ways.as_slice(), &ending) {
            drop(ending);
            return Ok(());
        }
        self.ways.reserve(1)?;
        let asks = Vec::from_slice(alloc, asks)?;
        self.ways.push_reserved(Way { ending, asks });
        Ok(())
    }
}
