//! Places and faults in objects.

ghost use Rattle.std.specs.Prelude.{◌≡◌, [], codes, None, OnOk};
ghost use Rattle.serde_json.specs.View.{members_view};
ghost use Rattle.txs_cli_json.specs.Members.{with_number, with_place, with_span};

use crate::object::Object;
use crate::places::Places;
use std::alloc::AllocError;
use txs_cli_advice::{of_fault, on_fault};
use txs_reader::place::Position;
use txs_reader::position;
use txs_value_data::{Fault, Span};

/// An object that is a part of a line.
pub(crate) type Part = Object<36>;

/// The object of a line.
pub(crate) type Line = Object<40>;

impl<const N: usize> Object<N> {
    /// Puts in that there is no place.
    fn put_nowhere(&mut self) -> Result<(), AllocError>
        ensures { OnOk result (members_view self.new.members.entries ≡ with_place [] None (members_view self.old.members.entries)) }
    {
        self.put_null("from")?;
        self.put_null("to")?;
        self.put_null("line")?;
        self.put_null("column")
    }

    /// Puts in where in the script's bytes a span is.
    pub(crate) fn put_span(&mut self, at: Span) -> Result<(), AllocError>
        ensures { OnOk result (members_view self.new.members.entries ≡ with_span at (members_view self.old.members.entries)) }
    {
        self.put_number("from", at.from as u64)?;
        self.put_number("to", at.to as u64)
    }

    /// Puts in a span, with the line and the column where it begins.
    fn put_at(&mut self, at: Span, place: Position) -> Result<(), AllocError>
        ensures { OnOk result (members_view self.new.members.entries ≡ with_number (codes "column") place.column (with_number (codes "line") place.line (with_span at (members_view self.old.members.entries)))) }
    {
        self.put_span(at)?;
        self.put_number("line", place.line as u64)?;
        self.put_number("column", place.column as u64)
    }

    /// Puts in where something is: its span, with its line and its column. All four are null where that isn't known.
    pub(crate) fn put_place(&mut self, text: &[u8], at: Option<Span>) -> Result<(), AllocError>
        ensures { OnOk result (members_view self.new.members.entries ≡ with_place text.now at (members_view self.old.members.entries)) }
    {
        match at {
            Some(at) => self.put_at(at, position(text, at.from as usize)),
            None => self.put_nowhere(),
        }
    }

    /// The same of one of many places.
    pub(crate) fn put_place_of(
        &mut self,
        places: &Places<'_>,
        at: Option<Span>,
    ) -> Result<(), AllocError> {
        match at {
            Some(at) => self.put_at(at, places.at(at.from as usize)),
            None => self.put_nowhere(),
        }
    }
}

/// What to do about a fault: what is known by its span, else what is known by its kind.
fn put_advice(object: &mut Part, text: &[u8], fault: Fault) -> Result<(), AllocError> {
    match on_fault(object.alloc, text, fault)? {
        Some(advice) => object.put_text("advice", advice.as_str()),
        None => object.put_text("advice", of_fault(fault.kind)),
    }
}

/// Puts a fault into a line: its name, its place, and what to do; or null where there is none.
pub(crate) fn put_fault(
    line: &mut Line,
    name: &str,
    text: &[u8],
    fault: Option<Fault>,
) -> Result<(), AllocError> {
    let Some(fault) = fault else {
        return line.put_null(name);
    };
    let mut object = Part::new(line.alloc);
    object.put_text("name", fault.kind.name())?;
    object.put_place(text, Some(fault.span))?;
    put_advice(&mut object, text, fault)?;
    line.put(name, object.into_value())
}
