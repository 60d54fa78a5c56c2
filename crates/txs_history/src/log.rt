ghost use Rattle.std.specs.Prelude.{◌≡◌, ◌+◌, ◌==◌, ◌<◌, ◌≤◌, ◌^◌, ◌++◌, ◌∷◌, ◌⊎◌, [], length, MatchBool, IsTrue, IsFalse, true, replicate};
ghost use mathlib.Core.List.{IsPrefix};
ghost use Rattle.txs_history.specs.History.{events_of, locks_in, HasOthers, IsWithin, WasAdded};
ghost use Rattle.txs_history.specs.Rules.{word_of};
ghost use Rattle.txs_history.specs.declared.log.Entry.TheVariants as entry;

use logbook::{Gain, Offer, Opening, Pens, Plain, Play, Rule, Seen, Start, Word};
use std::marker::{Brand, Model, PhantomData};

/// An entry of a history. It is written in contracts and proofs alone: no value of it is made.
pub enum Entry<E> {
    /// The first entry: how many locks there are.
    Locks(u64),
    /// An event, under the lock with this number.
    Event(u64, E),
}

/// The rule that the words keep: each of them is the number of events that the history has under its lock.
pub struct Law;

impl<E> Rule<Entry<E>, u64> for Law {
    ghost use Rattle.std.specs.Prelude.{[]};
    ghost use base.Fml.{ftrue};
    ghost use Rattle.txs_history.specs.Rules.{IsKept};

    ghost holds = { λ cells log. IsKept cells log };

    ghost first = { [] };

    ghost hinted = { λ n log. Unit {0} };

    ghost shows = { λ log. [] };

    ghost keeps = { λ names log. ftrue };

    ghost moves = { λ ask before after answer. Unit {0} };
}

/// A step hands nothing over to its caller, and takes nothing from it.
pub struct Nothing;

impl<E> Gain<Entry<E>, u64> for Nothing {
    ghost use base.Fml.{ftrue};

    ghost after = { λ names about answer. ftrue };
}

/// How a history opens: with the number of its locks.
pub struct Head;

impl<E> Opening<u64, Entry<E>> for Head {
    ghost use Rattle.std.specs.Prelude.{[], ◌∷◌};
    ghost use Rattle.txs_history.specs.declared.log.Entry.TheVariants.{Locks};

    ghost log = { λ n x. Locks n ∷ [] };
}

/// A step that reads a word: as many events has the history under its lock.
pub struct Look;

impl<E> Play<Entry<E>, u64> for Look {
    ghost use Rattle.txs_history.specs.Rules.{Looks};

    ghost then = { Looks };
}

/// A step that adds an event, where its lock has just so many as are expected.
pub struct Add;

impl<E> Play<Entry<E>, u64> for Add {
    ghost use Rattle.txs_history.specs.Rules.{Adds};

    ghost then = { Adds };
}

/// For which event a value is. So a log takes the value by reference, and no event is made or copied. An actor that waits with
/// an ask, for example, says which ask of which actor it is.
pub trait StandsFor<X, E> {
    ghost event: { X → E };
}

/// A value that is for an event, lent, with the number of the event's lock.
#[derive(Drop)]
pub struct Lent<'a, X> {
    key: u64,
    about: &'a X,
}

/// A step that adds the event for which a value is.
pub struct Adding<M> {
    of: PhantomData<M>,
}

impl<'a, X, E, M: StandsFor<X, E>> Plain<Lent<'a, X>, Entry<E>, u64> for Adding<M> {
    ghost use Rattle.std.specs.Prelude.{None};
    ghost use Rattle.txs_history.specs.declared.log.Entry.TheVariants.{Event};

    ghost ask = { λ lent. Event lent.key (M.event lent.about.now) };

    ghost state = { λ lent. None };
}

/// What a look asks for: nothing of it is used.
impl<E> Plain<u64, Entry<E>, u64> for Look {
    ghost use Rattle.std.specs.Prelude.{None};
    ghost use Rattle.txs_history.specs.declared.log.Entry.TheVariants.{Locks};

    ghost ask = { λ n. Locks n };

    ghost state = { λ n. None };
}

/// Which history a type is of. Logs and pasts with the same naming are of one history, so of two beginnings that they have seen one
/// begins the other. The call that opens a history picks the naming, by [`Brand`].
pub trait Naming {
    ghost use Rattle.logbook.specs.Pages.{Book};

    ghost book: { Book };
}

impl Naming for Brand {
    ghost book = { record { number = 0; log_name = 0; cells_name = 0 } };
}

/// A history that was opened, from which the logs of its locks are taken, one after the other. It has no naming yet.
#[derive(Drop)]
pub struct Opened<E> {
    pens: Pens,
    seen: Seen<Entry<E>, u64, Law>,
    next: u64,
    count: u64,
    pub ghost at: { pens.next ≡ next },
    pub ghost same: { pens.book ≡ seen.book },
    pub ghost left: { pens.next + pens.left ≡ count },
    pub ghost headed: { seen.log ≡ entry.Locks count ∷ [] },
}

impl<E> Opened<E> {
    /// Opens a history of so many locks, without an event.
    pub fn new(count: u64) -> Opened<E>
        ensures { (result.count ≡ count) × (result.next ≡ 0) }
    {
        let (seen, pens) = Seen::open_row::<u64, Head>(&count, Start::alone(), count as usize);
        Opened {
            pens,
            seen,
            next: 0,
            count,
        }
    }
}

impl<E> Opened<E> {
    /// The log of the next lock: the first is that of lock 0. Each number is given once, so no event is added beside a log.
    pub fn next<J: Naming>(&mut self) -> Log<E, J>
        requires book { self.old.seen.book ≡ J.book }
        requires more { self.old.next < self.old.count }
        ensures log { (result.key ≡ self.old.next) × (result.log ≡ entry.Locks self.old.count ∷ []) }
        ensures rest { (self.new.count ≡ self.old.count) × (self.new.next ≡ self.old.next + 1) × (self.new.seen.book ≡ self.old.seen.book) }
    {
        let key = self.next;
        let mut pen = self.pens.take();
        self.next = key + 1;
        Log {
            key,
            word: Word::tracked(0, &mut pen),
            len: 0,
            seen: self.seen.again(),
            of: PhantomData,
        }
    }
}

impl<E> Opened<E> {
    /// How many locks the history has.
    pub fn len(&self) -> u64
        ensures { result ≡ self.now.count }
    {
        self.count
    }

    /// The past of one that has seen no event yet.
    pub fn past<J: Naming>(&self) -> Past<E, J>
        requires book { self.now.seen.book ≡ J.book }
        ensures { result ≡ self.now.seen.log }
    {
        Past {
            seen: self.seen.again(),
            of: PhantomData,
        }
    }
}

/// The right to add events under one lock, kept behind that lock, beside what the events are about. Contracts see the lock's number, and
/// the history up to the last event that was added here. That has all events under the number, among those of other locks.
/// At run time it is the number of its events, and a word for it that other threads may read.
#[derive(Drop)]
pub struct Log<E, J: Naming> {
    key: u64,
    word: Word<Entry<E>, u64, Law>,
    len: u64,
    seen: Seen<Entry<E>, u64, Law>,
    of: PhantomData<J>,
}

impl<E, J: Naming> Model for Log<E, J> {
    ghost use Rattle.std.specs.Prelude.{◌≡◌, ◌<◌, length};
    ghost use Rattle.txs_history.specs.History.{PlainLog, events_of, locks_in};
    ghost use Rattle.txs_history.specs.Rules.{word_of};

    ghost Value = { PlainLog E };

    ghost view = { λ l. record { key = l.key; log = l.seen.log } };

    ghost invariant = { λ l. (l.word ≡ word_of l.key J.book) × (l.seen.book ≡ J.book) × (l.len ≡ length (events_of l.key l.seen.log)) × (l.key < locks_in l.seen.log) };
}

/// A beginning of the history, which somebody has seen. Contracts see its entries. At run time it is nothing but a name.
#[derive(Drop)]
pub struct Past<E, J: Naming> {
    seen: Seen<Entry<E>, u64, Law>,
    of: PhantomData<J>,
}

impl<E, J: Naming> Model for Past<E, J> {
    ghost use Rattle.std.specs.Prelude.{◌≡◌, List};
    ghost use Rattle.txs_history.specs.declared.log.Entry.{Entry};

    ghost Value = { List (Entry E) };

    ghost view = { λ p. p.seen.log };

    ghost invariant = { λ p. p.seen.book ≡ J.book };
}

impl<E, J: Naming> Past<E, J> {
    /// It then goes at least as far as the log has seen.
    #[tactic(auto, using(crate::proofs::Beginnings::kept_within))]
    pub fn learn(&mut self, log: &Log<E, J>)
        ensures own { IsPrefix self.old self.new }
        ensures other { IsPrefix log.now.log self.new }
        ensures within { IsWithin (locks_in self.new) self.new }
    {
        self.seen.learn(&log.seen);
    }

    /// A copy of it.
    pub fn again(&self) -> Past<E, J>
        ensures { result ≡ self.now }
    {
        Past {
            seen: self.seen.again(),
            of: PhantomData,
        }
    }

    /// It then goes at least as far as another past.
    #[tactic(auto, using(crate::proofs::Beginnings::kept_within))]
    pub fn learn_past(&mut self, other: &Past<E, J>)
        ensures own { IsPrefix self.old self.new }
        ensures other { IsPrefix other.now self.new }
        ensures within { IsWithin (locks_in self.new) self.new }
    {
        self.seen.learn(&other.seen);
    }
}

impl<E, J: Naming> Log<E, J> {
    /// The history up to its last event.
    pub fn past(&self) -> Past<E, J>
        ensures { result ≡ self.now.log }
    {
        Past {
            seen: self.seen.again(),
            of: PhantomData,
        }
    }

    /// Adds an event under its number, behind all that it and the past have seen, and the past then has seen the event, too. So whoever
    /// adds events under several locks with one past has them in the history in its own order.
    ///
    /// False only where the history has events under this number that weren't added here. Then nothing is added, and the past has seen those. No code adds
    /// such events, but the type alone doesn't say so: the word is compared.
    pub fn push<X, M: StandsFor<X, E>>(&mut self, past: &mut Past<E, J>, about: &X) -> bool
        requires room { length (events_of self.old.key self.old.log) < 2 ^ 62 }
        ensures key { self.new.key ≡ self.old.key }
        ensures seen { IsTrue result → past.new ≡ self.new.log }
        ensures pushed { IsTrue result → WasAdded self.old.key self.old.log past.old self.new.log (M.event about.now) }
        ensures failed { IsFalse result → (self.new ≡ self.old) × HasOthers self.old.key self.old.log past.old past.new }
    {
        let lent = Lent {
            key: self.key,
            about,
        };
        let mut seen = self.seen.again();
        seen.learn(&past.seen);
        let mut offer: Offer<Entry<E>, u64, Law, Nothing> = seen.plain::<
            Nothing,
            Lent<X>,
            Adding<M>,
        >(&lent);
        let mut pen = seen.no_pen();
        let len = self.len;
        let found = self
            .word
            .compare_exchange::<Add, Nothing>(len, len + 1, &mut seen, &mut offer, &mut pen);
        if found != len {
            past.seen = seen;
            return false;
        }
        past.seen = seen.again();
        self.seen = seen;
        self.len = len + 1;
        true
    }
}

impl<E, J: Naming> Log<E, J> {
    /// How many events there are under its number.
    pub fn len(&self) -> u64
        ensures { result ≡ length (events_of self.now.key self.now.log) }
    {
        self.len
    }

    /// The number of its lock. It is one of the history's locks.
    pub fn key(&self) -> u64
        ensures number { result ≡ self.now.key }
        ensures among { self.now.key < locks_in self.now.log }
    {
        self.key
    }

    /// Whether a past, which has seen what the log has, has just the log's events under its number. So logs that are whole beside one
    /// past have all its events between them. False only where the history has others, which the past then has seen.
    pub fn is_whole(&self, past: &mut Past<E, J>) -> bool
        requires seen { IsPrefix self.now.log past.old }
        ensures whole { IsTrue result → (past.new ≡ past.old) × (events_of self.now.key past.old ≡ events_of self.now.key self.now.log) }
        ensures others { IsFalse result → HasOthers self.now.key self.now.log past.old past.new }
    {
        let mut seen = past.seen.again();
        let mut offer: Offer<Entry<E>, u64, Law, Nothing> = seen.plain::<Nothing, u64, Look>(
            &self.key,
        );
        if self.word.load::<Look, Nothing>(&mut seen, &mut offer) == self.len {
            return true;
        }
        past.seen = seen;
        false
    }
}
