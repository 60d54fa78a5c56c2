//! Takes the events of all books, each when all that came before it is taken.

ghost use Rattle.std.specs.Prelude.{◌≡◌, ◌<◌, length, replicate, take, true, IfOk};
ghost use Rattle.std.proofs.Common.{get_or};
ghost use Rattle.std.specs.List.Sorted.{IsNonDecreasingBy};
ghost use Rattle.txs_theorem_serial.specs.Taken.{is_taken};
ghost use Rattle.txs_audit_order.specs.declared.links.Before.{Before as PlainBefore};
ghost use Rattle.txs_audit_order.specs.Going.{AreReady, IsGone, IsLast, IsPassed, IsTaking, are_taken, earlier_of, first_to_go, free_in, may_go, stands_in};

use crate::links::Before;
use crate::rows::Row;
use std::alloc::{AllocError, Global};

/// The number at this place, 0 where there is none.
pub(crate) fn number_at(numbers: &[usize], place: usize) -> usize
    ensures { result ≡ get_or numbers.now place 0 }
{
    match numbers.get(place) {
        Some(number) => *number,
        None => 0,
    }
}

/// Whether a link stands in the way of the event at this index, where so many events of each book are taken.
pub(crate) fn stands_in(link: Before, cut: &[usize], at: usize) -> bool
    ensures { result ≡ stands_in cut.now at link }
{
    link.at as usize == at && !is_taken(cut, link)
}

/// Whether what came before is taken.
fn is_taken(cut: &[usize], link: Before) -> bool
    ensures { result ≡ is_taken cut.now (earlier_of link) }
{
    link.earlier < number_at(cut, link.book as usize)
}

/// Whether no link of a row stands in the way of the event at this index.
fn is_free(row: &[Before], cut: &[usize], at: usize) -> bool
    ensures { result ≡ free_in row.now cut.now at }
{
    for link in row {
        if stands_in(*link, cut, at) {
            return false;
        }
    }
    true
}

/// Whether a book's next event may be taken.
fn may_take(lengths: &[usize], rows: &[Row<Before>], cut: &[usize], book: usize) -> bool
    requires { book < length rows.now }
    ensures { result ≡ may_go lengths.now rows.now cut.now book }
{
    let at = number_at(cut, book);
    at < number_at(lengths, book) && is_free(rows[book].as_slice(), cut, at)
}

/// The first book whose next event may be taken.
fn first_free(lengths: &[usize], rows: &[Row<Before>], cut: &[usize]) -> Option<usize>
    requires { AreReady lengths.now rows.now }
    ensures { result ≡ first_to_go lengths.now rows.now cut.now 0 (length lengths.now) }
{
    for book in 0..lengths.len() {
        if may_take(lengths, rows, cut, book) {
            return Some(book);
        }
    }
    None
}

/// Passes the links of a row, in order of their later events, whose earlier event is taken, and answers the one that stands in the way
/// of the event at this index, if one does.
fn pass(row: &[Before], cut: &[usize], passed: &mut usize, at: usize) -> Option<Before>
    requires past { are_taken cut.now (take passed.old row.now) ≡ true }
    requires ascends { IsNonDecreasingBy (λ (x : PlainBefore). x.at) row.now }
    ensures { IsPassed row.now cut.now at passed.new result }
{
    while *passed < row.len() {
        let link = row[*passed];
        if link.at as usize > at {
            return None;
        }
        if !is_taken(cut, link) {
            return Some(link);
        }
        *passed += 1;
    }
    None
}

/// How many events of each book are taken, and how many links of each row are passed.
#[derive(Drop)]
struct Taking {
    cut: Vec<usize>,
    passed: Vec<usize>,
}

/// A book of which so many events are to be taken.
#[derive(Clone, Copy, Drop)]
struct Aim {
    book: usize,
    many: usize,
}

impl Taking {
    /// Takes the next event of a book, if it has one and may. Else the link is answered that stands in its way.
    fn take(&mut self, lengths: &[usize], rows: &[Row<Before>], book: usize) -> Option<Before>
        requires ready { AreReady lengths.now rows.now }
        requires taking { IsTaking lengths.now rows.now self.old.cut.items self.old.passed.items }
        ensures { IsTaking lengths.now rows.now self.new.cut.items self.new.passed.items }
    {
        let at = number_at(self.cut.as_slice(), book);
        if at >= number_at(lengths, book) {
            return None;
        }
        let row = rows[book].as_slice();
        let passed = &mut self.passed[book];
        match pass(row, self.cut.as_slice(), passed, at) {
            Some(link) => Some(link),
            None => {
                self.cut[book] = at + 1;
                None
            }
        }
    }

    /// Takes events of a book up to so many. The link is answered that stands in the way, if one does.
    fn advance(&mut self, lengths: &[usize], rows: &[Row<Before>], aim: Aim) -> Option<Before>
        requires ready { AreReady lengths.now rows.now }
        requires taking { IsTaking lengths.now rows.now self.old.cut.items self.old.passed.items }
        ensures { IsTaking lengths.now rows.now self.new.cut.items self.new.passed.items }
    {
        let taken = number_at(self.cut.as_slice(), aim.book);
        for _i in taken..aim.many {
            match self.take(lengths, rows, aim.book) {
                Some(link) => return Some(link),
                None => {}
            }
        }
        None
    }

    /// Takes as many events as are aimed at, the last aim first, and before them those of other books that came before them. Books that
    /// are held wait for each other, or for one that does: none of their events is aimed at.
    fn reach(
        &mut self,
        lengths: &[usize],
        rows: &[Row<Before>],
        held: &mut Vec<bool>,
        aims: &mut Vec<Aim>,
    ) -> Result<(), AllocError>
        requires ready { AreReady lengths.now rows.now }
        requires taking { IsTaking lengths.now rows.now self.old.cut.items self.old.passed.items }
        ensures { IsTaking lengths.now rows.now self.new.cut.items self.new.passed.items }
    {
        for _i in 0..u64::MAX {
            let aim = match aims.pop() {
                Some(aim) => aim,
                None => return Ok(()),
            };
            match self.advance(lengths, rows, aim) {
                Some(link) => {
                    let book = link.book as usize;
                    if !hold(held, book) {
                        aims.clear();
                        return Ok(());
                    }
                    aims.push(aim)?;
                    aims.push(Aim {
                        book,
                        many: link.earlier.saturating_add(1),
                    })?;
                }
                None => release(held, aim.book),
            }
        }
        Ok(())
    }

    /// Takes as many events of each book as may be.
    fn reach_all(
        &mut self,
        alloc: Global,
        lengths: &[usize],
        rows: &[Row<Before>],
    ) -> Result<(), AllocError>
        requires ready { AreReady lengths.now rows.now }
        requires taking { IsTaking lengths.now rows.now self.old.cut.items self.old.passed.items }
        ensures { IsTaking lengths.now rows.now self.new.cut.items self.new.passed.items }
    {
        let mut held = vec![in alloc; false; lengths.len()]?;
        let mut aims = Vec::new(alloc);
        for (book, many) in lengths.iter().enumerate() {
            if hold(&mut held, book) {
                aims.push(Aim { book, many: *many })?;
                self.reach(lengths, rows, &mut held, &mut aims)?;
            }
        }
        Ok(())
    }
}

/// Holds a book, if it isn't held.
fn hold(held: &mut Vec<bool>, book: usize) -> bool {
    match held.get_mut(book) {
        Some(holds) => {
            let free = !*holds;
            *holds = true;
            free
        }
        None => false,
    }
}

/// Releases a book.
fn release(held: &mut Vec<bool>, book: usize) {
    match held.get_mut(book) {
        Some(holds) => *holds = false,
        None => {}
    }
}

/// Takes what may be taken still. Where all was taken that may be, as it is behind `reach_all`, one look at each book shows that this is nothing.
fn take_rest(lengths: &[usize], rows: &[Row<Before>], cut: &mut Vec<usize>)
    requires ready { AreReady lengths.now rows.now }
    requires gone { IsGone lengths.now rows.now cut.old.items }
    ensures { IsLast lengths.now rows.now cut.new.items }
{
    while let Some(book) = first_free(lengths, rows, cut.as_slice()) {
        cut[book] += 1;
    }
}

/// How many events of each book are taken when no more may be.
pub(crate) fn last_cut(
    alloc: Global,
    lengths: &[usize],
    rows: &[Row<Before>],
) -> Result<Vec<usize>, AllocError>
    requires { AreReady lengths.now rows.now }
    ensures { IfOk result (λ cut. IsLast lengths.now rows.now cut.items) }
{
    let cut = vec![in alloc; 0; lengths.len()]?;
    let passed = vec![in alloc; 0; lengths.len()]?;
    let mut taking = Taking { cut, passed };
    taking.reach_all(alloc, lengths, rows)?;
    take_rest(lengths, rows, &mut taking.cut);
    Ok(taking.cut)
}
