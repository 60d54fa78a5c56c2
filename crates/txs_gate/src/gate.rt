//! What a worker passes between an actor's steps.

ghost use Rattle.std.specs.Prelude.{◌≡◌};
ghost use Rattle.txs_gate.specs.Kinds.{kind_of};

use txs_world_protocol::Ask;

/// Which ask was answered.
#[derive(Clone, Copy, PartialEq, Eq)]
pub enum AskKind {
    Begin,
    Look,
    View,
    Commit,
    Fail,
    Peek,
    Send,
    Take,
    Finish,
    OpenAt,
    CloseAt,
    Broke,
}

/// Where an actor is.
#[derive(Clone, Copy, PartialEq, Eq)]
pub enum Moment {
    /// Before some turns: as many as the gate allows, or up to an ask or its end.
    Local,
    /// After an ask of this kind was served.
    Answered(AskKind),
}

/// An ask that was served, without what was asked: under which lock, how many events the book there had before, and whether it has one more now.
#[derive(Clone, Copy)]
pub struct Made {
    pub lock: u64,
    pub at: u32,
    pub added: bool,
}

/// What a worker calls for each actor that it runs, outside every lock: with `Local` before its turns, and with `Answered` after
/// each ask that was served.
pub trait Gate: Sync {
    /// How many turns an actor makes at most between two calls of `pass` with `Local`. Where nothing is said, one; none counts as one.
    fn most_turns(&self) -> u64 {
        1
    }

    fn pass(&self, actor: u16, moment: Moment);

    /// An actor's ask was served. Each actor's asks are noted in their order.
    fn note(&self, _actor: u16, _made: Made) {}
}

/// Lets all pass, and all turns up to an ask at once.
#[derive(Drop)]
pub struct OpenGate;

impl Gate for OpenGate {
    fn most_turns(&self) -> u64 {
        u64::MAX
    }

    fn pass(&self, _actor: u16, _moment: Moment) {}
}

/// Of which kind an ask is.
pub fn kind_of(ask: &Ask) -> AskKind
    ensures { result ≡ kind_of ask.now }
{
    match ask {
        Ask::Begin => AskKind::Begin,
        Ask::Look { .. } => AskKind::Look,
        Ask::View { .. } => AskKind::View,
        Ask::Commit { .. } => AskKind::Commit,
        Ask::Fail { .. } => AskKind::Fail,
        Ask::Peek { .. } => AskKind::Peek,
        Ask::Send { .. } => AskKind::Send,
        Ask::Take { .. } => AskKind::Take,
        Ask::Finish { .. } => AskKind::Finish,
        Ask::OpenAt { .. } => AskKind::OpenAt,
        Ask::CloseAt { .. } => AskKind::CloseAt,
        Ask::Broke { .. } => AskKind::Broke,
    }
}
