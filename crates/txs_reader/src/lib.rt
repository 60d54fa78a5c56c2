//! The reader of scripts: bytes to forms with their spans, or the first refusal with its place. What a
//! script is, and where the reading of one stops, is said by relations on whole texts; for each input
//! exactly one of them holds, for one answer, and it is the reader's.
//!
//! And places in a text: the line and the column of a byte, the line around it, and what points to a span.
#![tactic(auto)]

ghost use Rattle.std.specs.Prelude.{◌≡◌, ◌⊎◌, List, ℕ};
ghost use Rattle.txs_reader.specs.Script.{Reads, ReadStops};
ghost use Rattle.txs_reader.specs.Tree.{PlainForm};
ghost use Rattle.txs_reader.specs.declared.error.ReadErrorKind.{ReadErrorKind};
ghost use Rattle.txs_value_data.specs.declared.fault.Span.{Span};

mod bytes;
pub mod error;
mod escape;
mod find;
pub mod form;
mod law;
mod line_bytes;
mod lines;
mod open_form;
mod open_forms;
pub mod place;
mod pointed;
mod quoted;
pub mod reader;
mod sign;
mod window;
mod word;

pub use error::{ReadError, ReadErrorKind};
pub use find::position;
pub use form::{Bracket, Form};
pub use law::{lines_are_safe, places_follow, plain_lines_stay, window_holds};
pub use lines::line_at;
pub use pointed::write_pointed;
pub use reader::read_script;
pub use sign::is_escaped;

/// A script has one reading, or its reading stops at one place for one reason.
pub fn one_answer()
    ensures decided { (bytes : List ℕ) → ((forms : List PlainForm) × Reads bytes forms) ⊎ ((kind : ReadErrorKind) × (span : Span) × ReadStops bytes kind span) }
    ensures one_reading { (bytes : List ℕ) (f g : List PlainForm) → Reads bytes f → Reads bytes g → f ≡ g }
    ensures one_stop { (bytes : List ℕ) (k l : ReadErrorKind) (s t : Span) → ReadStops bytes k s → ReadStops bytes l t → (k ≡ l) × (s ≡ t) }
    ensures not_both { (bytes : List ℕ) (f : List PlainForm) (k : ReadErrorKind) (s : Span) → Reads bytes f → ReadStops bytes k s → ⊥ }
{}
