//! The values that a transaction has of its own, by ascending number of their refs.

ghost use Rattle.std.specs.Prelude.{◌≡◌, length, OnOk, OnErr};
ghost use Rattle.std.specs.List.Sorted.{IsSearchInRange};
ghost use Rattle.txs_frame.specs.Kept.{Ascends, IsPlaceOf, put_at, how_at, was_commuted_if, with_commute, number_of};

use std::alloc::AllocError;
use txs_value_data::Value;

/// How a ref came by its value.
#[derive(Clone, Copy)]
pub(crate) enum How {
    Set,
    Commuted,
    /// It was set, and commuted after that.
    Both,
}

/// A ref by its number, its value, and how it came by that.
#[derive(Drop)]
pub(crate) struct Own {
    pub(crate) number: u16,
    pub(crate) value: Value,
    pub(crate) how: How,
}

/// The place of the ref with this number, or where it would be.
pub(crate) fn find(own: &[Own], number: u16) -> Result<usize, usize>
    requires { Ascends number_of 0 own.now }
    ensures { IsPlaceOf number_of own.now number result }
{
    own.binary_search_by_key(&number, |o| o.number)
}

/// How the ref at a place came by its value, if it has one.
pub(crate) fn how_at(own: &[Own], place: Result<usize, usize>) -> Option<How>
    requires { IsSearchInRange place (length own.now) }
    ensures { result ≡ how_at own.now place }
{
    match place {
        Ok(i) => Some(own[i].how),
        Err(_) => None,
    }
}

/// Puts an own value at its place. Most often there is none yet, and it comes behind all others: a transaction that sets one ref
/// has no other.
#[inline(always)]
pub(crate) fn put(
    own: &mut Vec<Own>,
    place: Result<usize, usize>,
    item: Own,
) -> Result<(), AllocError>
    requires { IsSearchInRange place (length own.old.items) }
    ensures put { OnOk result (own.new.items ≡ put_at own.old.items place item) }
    ensures kept { OnErr result (own.new.items ≡ own.old.items) }
{
    match place {
        Ok(i) => own[i] = item,
        Err(i) => {
            if i == own.len() {
                own.reserve(1)?;
                own.push_reserved(item);
            } else {
                own.insert(i, item)?;
            }
        }
    }
    Ok(())
}

/// Whether a ref whose value came so, if it has one, was commuted.
pub(crate) fn was_commuted(how: Option<How>) -> bool
    ensures { result ≡ was_commuted_if how }
{
    match how {
        None | Some(How::Set) => false,
        Some(How::Commuted | How::Both) => true,
    }
}

/// How a ref's value came once it is commuted.
pub(crate) fn with_commute(how: Option<How>) -> How
    ensures { result ≡ with_commute how }
{
    match how {
        None | Some(How::Commuted) => How::Commuted,
        Some(How::Set | How::Both) => How::Both,
    }
}
