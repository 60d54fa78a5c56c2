//! A form whose end hasn't come yet.

ghost use Rattle.std.specs.Prelude.{◌+◌, ◌^◌, ◌<◌};

use crate::form::Bracket;

/// An opening byte whose form isn't whole yet.
#[derive(Clone, Copy)]
pub struct OpenForm {
    /// The bracket, or none for the sign `@`.
    pub bracket: Option<Bracket>,
    /// The offset of the opening byte.
    pub from: u32,
    /// How many forms are before it in what it is in.
    pub before: usize,
    ghost small: { from + 1 < 2 ^ 32 },
}
