//! What the sentences of txs_cli_advice are made of: their parts, and what a script has at a place, read again: names, definitions, the
//! list around a span, brackets that are open. And the sentences about scripts that aren't read. A sentence that is written is its parts,
//! one after the other, in one line that is safe to show: else it is none.
//!
//! Names and signs that a script may not have, or not so: names of clojure.core that the profile leaves out, words of other
//! languages, the forms and their shapes, what core operations take, words that aren't read. Each look-up promises what the first row of
//! a table says that has the word. And which known name is near another.
#![tactic(auto)]

pub mod around;
mod brackets;
pub mod clojure;
pub mod near;
pub mod read;
mod rows;
pub mod script;
pub mod sentence;
pub mod shapes;
pub mod signs;

pub use around::{Around, nearest_defined, place_of_function, surroundings};
pub use clojure::{instead_of, instead_of_call, instead_of_word};
pub use near::{Near, nearer, unlike};
pub use read::{is_of_language, on_read};
pub use rows::{Row, in_rows};
pub use script::{
    bytes_at, definition_of, first_vector, forms_of, items_at, name_at, parts_at, word_at,
};
pub use sentence::{
    Sentence, about, if_safe, instead_for, of_clojure, of_two, or, plain, write, write_count,
    written,
};
pub use shapes::{
    NOT_AT_TOP, inside, is_of_top, nearest_at_top, nearest_form, nearest_operation, shape_at_top,
    takes,
};
pub use signs::{byte_at, of_called, of_code, of_left_out, of_mark, text_of};
