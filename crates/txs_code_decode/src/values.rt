//! Values, read.

ghost use Rattle.std.specs.Prelude.{◌≡◌, ◌-◌, ◌≤◌, ◌<◌};
ghost use Rattle.txs_value_data.specs.View.{plain_of, plains_of};
ghost use Rattle.txs_code_decode.specs.declared.error.CodeErrorKind.TheVariants.{BadOperand};
ghost use Rattle.txs_code_decode.specs.declared.tag.Tag.TheVariants as tag;
ghost use Rattle.txs_code_decode.specs.CellForm.{kinds_of};
ghost use Rattle.txs_code_decode.specs.Format.{Gives, never, many_at};
ghost use Rattle.txs_code_decode.specs.ValueForm.{must, tag_test, tag_format, value_body, value_format};

use crate::error::{CodeErrorKind, Stop, refused};
use crate::fields::{keyword_at, room_for, text_at, u8_at, u16_at, u64_at};
use crate::tag::Tag;
use std::alloc::Global;
use txs_value_cell::CellDefinition;
use txs_value_data::{CellId, Items, Value};

/// The levels that a value may have, which is `MOST_DEPTH`.
pub(crate) const LEVELS: usize = 32;

/// Whether a value of this tag may be where cells may or not, with room for so many levels of vectors.
fn may_stand(cells: bool, room: usize, tag: Tag) -> bool
    ensures { must BadOperand result ≡ tag_test cells room tag }
{
    match tag {
        Tag::Vector => room > 0,
        Tag::Cell => cells,
        Tag::Nil | Tag::False | Tag::True | Tag::Int | Tag::Key | Tag::Text => true,
    }
}

/// The tag of a value, where cells may be or not, with room for so many levels of vectors.
#[tactic(auto, unfolding(crate::specs::ValueForm::tag_format))]
fn tag_at(cells: bool, room: usize, bytes: &[u8]) -> Result<(Tag, &[u8]), Stop>
    ensures { Gives (λ x. (x.0, x.1.now)) result ((tag_format cells room).read bytes.now) }
{
    match u8_at(bytes) {
        Ok((byte, rest)) => match Tag::from_byte(byte) {
            Some(tag) => {
                if !may_stand(cells, room, tag) {
                    return Err(refused(CodeErrorKind::BadOperand, bytes));
                }
                Ok((tag, rest))
            }
            None => Err(refused(CodeErrorKind::BadOpcode, bytes)),
        },
        Err(stop) => Err(stop),
    }
}

/// The cell, as a value, of the number that is here, where these cells are.
fn cell_at<'a>(defined: &[CellDefinition], bytes: &'a [u8]) -> Result<(Value, &'a [u8]), Stop>
    ensures { Gives (λ x. (plain_of x.0, x.1.now)) result ((value_body (kinds_of defined.now) never tag.Cell).read bytes.now) }
{
    match u16_at(bytes) {
        Ok((number, rest)) => {
            let at = usize::from(number);
            let is_out = at >= defined.len();
            if is_out {
                return Err(refused(CodeErrorKind::BadOperand, bytes));
            }
            let kind = defined[at].kind;
            Ok((Value::Cell(CellId { kind, number }), rest))
        }
        Err(stop) => Err(stop),
    }
}

/// So many values, with vectors in so many levels.
#[cycle(value)]
pub(crate) fn values_at<'a>(
    alloc: Global,
    cells: bool,
    defined: &[CellDefinition],
    room: usize,
    count: u32,
    bytes: &'a [u8],
) -> Result<(Vec<Value>, &'a [u8]), Stop>
    requires { room ≤ 32 }
    ensures { Gives (λ x. (plains_of x.0.items, x.1.now)) result (many_at (value_format cells (kinds_of defined.now) room).read count bytes.now) }
{
    let mut values = room_for(alloc, bytes.len().min(count as usize), bytes)?;
    let mut rest = bytes;
    for _ in 0..count {
        match value_at(alloc, cells, defined, room, rest) {
            Ok((value, after)) => {
                values.push(value)?;
                rest = after;
            }
            Err(stop) => return Err(stop),
        }
    }
    Ok((values, rest))
}

/// A vector, with vectors in so many levels.
#[cycle(value)]
fn vector_at<'a>(
    alloc: Global,
    cells: bool,
    defined: &[CellDefinition],
    room: usize,
    bytes: &'a [u8],
) -> Result<(Value, &'a [u8]), Stop>
    requires some { 0 < room }
    requires room { room ≤ 32 }
    ensures { Gives (λ x. (plain_of x.0, x.1.now)) result ((value_body (kinds_of defined.now) (value_format cells (kinds_of defined.now) (room - 1)) tag.Vector).read bytes.now) }
{
    let (count, rest) = u16_at(bytes)?;
    match values_at(alloc, cells, defined, room - 1, count as u32, rest) {
        Ok((values, rest)) => Ok((Value::Vector(Items::from_vec(alloc, values)?), rest)),
        Err(stop) => Err(stop),
    }
}

/// A value, with vectors in so many levels, where cells may be or not, and these are the cells.
#[cycle(value)]
pub(crate) fn value_at<'a>(
    alloc: Global,
    cells: bool,
    defined: &[CellDefinition],
    room: usize,
    bytes: &'a [u8],
) -> Result<(Value, &'a [u8]), Stop>
    requires { room ≤ 32 }
    ensures { Gives (λ x. (plain_of x.0, x.1.now)) result ((value_format cells (kinds_of defined.now) room).read bytes.now) }
{
    match tag_at(cells, room, bytes) {
        Ok((tag, rest)) => match tag {
            Tag::Nil => Ok((Value::Nil, rest)),
            Tag::False => Ok((Value::Truth(false), rest)),
            Tag::True => Ok((Value::Truth(true), rest)),
            Tag::Int => match u64_at(rest) {
                Ok((number, rest)) => Ok((Value::Int(number.cast_signed()), rest)),
                Err(stop) => Err(stop),
            },
            Tag::Key => keyword_at(alloc, rest),
            Tag::Text => text_at(alloc, rest),
            Tag::Vector => vector_at(alloc, cells, defined, room, rest),
            Tag::Cell => cell_at(defined, rest),
        },
        Err(stop) => Err(stop),
    }
}
