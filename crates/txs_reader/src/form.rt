//! Forms: what the text of a script is made of, each with the place where it is.

ghost use Rattle.std.specs.Prelude.{◌≡◌};
ghost use Rattle.txs_reader.specs.Tree.{tree, place};

use txs_value_data::{Name, Span, Text};

/// The two kinds of brackets: a list is in round ones, a vector in square ones.
#[derive(Clone, Copy, PartialEq, Eq)]
pub enum Bracket {
    Round,
    Square,
}

/// A form, with its span. `@form` is the list of the symbol `deref` and the form.
#[derive(Drop)]
pub enum Form {
    Nil(Span),
    Truth(bool, Span),
    Number(i64, Span),
    /// The text between two quotes, its escapes replaced.
    Text(Text, Span),
    /// The name behind the colon.
    Keyword(Name, Span),
    Symbol(Name, Span),
    Group(Bracket, Vec<Form>, Span),
}

impl Form {
    /// Where the form is, its brackets and quotes included.
    pub fn span(&self) -> Span
        ensures { result ≡ place (tree self.now) }
    {
        match self {
            Form::Nil(span)
            | Form::Truth(_, span)
            | Form::Number(_, span)
            | Form::Text(_, span)
            | Form::Keyword(_, span)
            | Form::Symbol(_, span)
            | Form::Group(_, _, span) => *span,
        }
    }
}
