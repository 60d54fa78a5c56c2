//! Replies to an actor's asks.

ghost use Rattle.std.specs.Prelude.{◌↔◌, IsTrue};
ghost use Rattle.txs_machine_actor.specs.PlainActor.{MayAnswer};

use txs_world_protocol::{Ask, Reply};

/// Whether the reply is one that the ask may have. Each ask but that of a beginning may find no memory, and each that
/// adds an event may find the book full.
pub fn may_answer(ask: &Ask, reply: &Reply) -> bool
    ensures { IsTrue result ↔ MayAnswer ask.now reply.now }
{
    match reply {
        Reply::At(_) => matches!(ask, Ask::Begin),
        Reply::Is(_) => matches!(ask, Ask::Look { .. } | Ask::Peek { .. }),
        Reply::Views(_, values) => match ask {
            Ask::View { cells } => values.as_slice().len() == cells.as_slice().len(),
            _ => false,
        },
        Reply::Done => matches!(
            ask,
            Ask::Commit { .. }
                | Ask::Fail { .. }
                | Ask::Send { .. }
                | Ask::Finish { .. }
                | Ask::CloseAt { .. }
                | Ask::Broke { .. }
        ),
        Reply::Retry(_) => matches!(ask, Ask::Look { .. } | Ask::Commit { .. }),
        Reply::Changed(_) => matches!(ask, Ask::Commit { .. } | Ask::CloseAt { at: Some(_), .. }),
        Reply::AgentIsFailed(_) => matches!(
            ask,
            Ask::Commit { .. } | Ask::Send { .. } | Ask::Finish { .. }
        ),
        Reply::Action { .. } | Reply::Idle => matches!(ask, Ask::Take { .. }),
        Reply::Opened(_, _) => matches!(ask, Ask::OpenAt { .. }),
        Reply::Full => ask.may_add_event(),
        Reply::Memory => match ask {
            Ask::Begin => false,
            _ => true,
        },
    }
}
