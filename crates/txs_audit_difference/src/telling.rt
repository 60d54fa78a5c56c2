//! What differs between a report and its program's text.

ghost use Rattle.std.specs.Prelude.{◌≡◌, true, Some, IfOk};
ghost use Rattle.txs_tree_meaning.specs.View.{program_of};
ghost use Rattle.txs_theorem_audit.specs.Audited.{entry_of, place_of, report_as};
ghost use Rattle.txs_theorem_audit.specs.Verdict.{fits_sizes, order_found, place_off};
ghost use Rattle.txs_audit_book.specs.Answered.{terms_as};
ghost use Rattle.txs_audit_difference.specs.Difference.{actors_told, books_told, difference_in, difference_of, first, order_told, stopped_what, stopped_what_in};
ghost use Rattle.txs_audit_difference.specs.Left.{spot_off};

use crate::books::books_told;
use crate::pieces::{Spot, at_event};
use crate::told::{Difference, Told};
use crate::walking::pieces_told;
use std::alloc::{AllocError, Global};
use txs_audit_book::Terms;
use txs_audit_event::What;
use txs_audit_evidence::{Books, ends_off, open_books};
use txs_audit_order::places::{entry_of, index_of};
use txs_audit_order::{has_sizes, out_of_order, traces_off};
use txs_tree_meaning::Program;
use txs_world_protocol::{Outcome, Place, Report};

/// What is wrong of the end of an actor that ended so and made so many steps.
fn stopped_what(terms: Terms, outcome: Option<Outcome>, steps: u64) -> What
    ensures { result ≡ stopped_what (terms_as terms) outcome steps }
{
    match outcome {
        Some(Outcome::StepsSpent) => What::Steps {
            expected: terms.steps,
            found: steps,
        },
        _ => What::Left,
    }
}

/// What is wrong of the end of the actor with this number.
fn end_what(report: &Report, terms: Terms, actor: u16) -> What
    ensures { result ≡ stopped_what_in (terms_as terms) (entry_of (report_as report.now) actor) }
{
    match entry_of(report, actor) {
        Some(ran) => stopped_what(terms, ran.outcome, ran.steps),
        None => What::Left,
    }
}

/// The actor of the event at a place, and the index at which its trace names it; none where there is no such event.
fn spot_of(books: &Books<'_>, place: Place) -> Option<Spot>
    ensures { spot_off result ≡ place_off books.now.report (Some (place_of place)) }
{
    match books.event_at(place) {
        Some(event) => {
            let at = place.at as usize;
            Some(Spot {
                actor: event.actor,
                event: index_of(books.report(), place.book, event.actor, at),
            })
        }
        None => None,
    }
}

/// Where the order of all events is off.
fn order_off(alloc: Global, books: &Books<'_>) -> Result<Option<Spot>, AllocError>
    ensures { IfOk result (λ o. spot_off o ≡ order_found (program_of books.now.program) books.now.report) }
{
    match out_of_order(alloc, books.program(), books.report())? {
        Some(place) => Ok(spot_of(books, place)),
        None => Ok(None),
    }
}

/// What the tests behind those of how actors ended tell.
fn order_told(alloc: Global, books: &Books<'_>, turns: u32) -> Result<Told, AllocError>
    ensures { IfOk result (λ t. t ≡ order_told (program_of books.now.program) books.now.report turns) }
{
    match order_off(alloc, books)? {
        Some(spot) => Ok(Told::So(at_event(What::Order, spot))),
        None => pieces_told(alloc, books, turns),
    }
}

/// What the tests behind those of the books tell.
fn actors_told(
    alloc: Global,
    books: &Books<'_>,
    terms: Terms,
    turns: u32,
) -> Result<Told, AllocError>
    ensures { IfOk result (λ t. t ≡ actors_told (program_of books.now.program) (terms_as terms) books.now.report turns) }
{
    match ends_off(alloc, books, terms)? {
        Some((actor, event)) => {
            let what = end_what(books.report(), terms, actor);
            Ok(Told::So(at_event(what, Spot { actor, event })))
        }
        None => order_told(alloc, books, turns),
    }
}

/// What differs, by what is told.
fn difference_in(told: Told) -> Option<Difference>
    ensures { result ≡ difference_in told }
{
    match told {
        Told::So(difference) => Some(difference),
        Told::Clear | Told::Open => None,
    }
}

/// What differs in a report that has the right sizes, in whose traces nothing does.
fn behind_traces(
    alloc: Global,
    program: &Program,
    report: &Report,
    terms: Terms,
    turns: u32,
) -> Result<Option<Difference>, AllocError>
    requires { fits_sizes (program_of program.now) (report_as report.now) ≡ true }
    ensures { IfOk result (λ d. d ≡ difference_in (first (books_told (program_of program.now) (report_as report.now)) (actors_told (program_of program.now) (terms_as terms) (report_as report.now) turns))) }
{
    match open_books(alloc, program, report)? {
        Ok(books) => {
            let told = actors_told(alloc, &books, terms, turns)?;
            Ok(difference_in(told))
        }
        Err(_) => {
            let told = books_told(alloc, program, report)?;
            Ok(difference_in(told))
        }
    }
}

/// What differs in a report that has the right sizes.
fn behind_sizes(
    alloc: Global,
    program: &Program,
    report: &Report,
    terms: Terms,
    turns: u32,
) -> Result<Option<Difference>, AllocError>
    requires { fits_sizes (program_of program.now) (report_as report.now) ≡ true }
    ensures { IfOk result (λ d. d ≡ difference_of (program_of program.now) (terms_as terms) (report_as report.now) turns) }
{
    // A step of the proof, which does nothing when it runs.
    program.is_sound();
    match traces_off(alloc, report)? {
        Some((actor, event)) => {
            let actor = actor as u16;
            Ok(Some(at_event(What::Trace, Spot { actor, event })))
        }
        None => behind_traces(alloc, program, report, terms, turns),
    }
}

/// What differs between the report of a run that was to do this (`terms`) and the program's text, if each loop makes at most `turns` turns: none where an audit
/// doesn't differ. The tests and their order are those of `verdict` in txs_theorem_audit. Of the first that isn't fine it is told what is expected and what is found.
///
/// # Errors
/// `AllocError` where there was no memory.
pub fn difference(
    alloc: Global,
    program: &Program,
    report: &Report,
    terms: Terms,
    turns: u32,
) -> Result<Option<Difference>, AllocError>
    ensures { IfOk result (λ d. d ≡ difference_of (program_of program.now) (terms_as terms) (report_as report.now) turns) }
{
    if !has_sizes(program, report) {
        let spot = Spot { actor: 0, event: 0 };
        return Ok(Some(at_event(What::Sizes, spot)));
    }
    behind_sizes(alloc, program, report, terms, turns)
}
