//! What has been read so far: whole forms, and those whose end hasn't come yet.

ghost use Rattle.std.specs.Prelude.{◌≡◌, ◌+◌, ◌^◌, ◌++◌, ◌∷◌, ◌<◌, ◌≤◌, [], List, ℕ, None, Some, true, false, length, IfOk, IsTrue, ◌↔◌};
ghost use Rattle.txs_reader.specs.Completes.{Completes};
ghost use Rattle.txs_reader.specs.Rows.{before_all};
ghost use Rattle.txs_reader.specs.Script.{Holds, FitsLast, HasAll, IsFull, EndsWithDeref, opened};
ghost use Rattle.txs_reader.specs.Tree.{tree};

use crate::form::{Bracket, Form};
use crate::open_form::OpenForm;
use std::alloc::{AllocError, Global};
use txs_value_data::limits::MOST_ITEMS;
use txs_value_data::{Name, Span};

/// What has been read: the openings, and all whole forms in one row, first those before the outermost
/// opening, then those between it and the next, and so on. So a list takes memory only where it closes,
/// when the number of its parts is known.
#[derive(Drop)]
pub struct OpenForms {
    pub open: Vec<OpenForm>,
    pub forms: Vec<Form>,
    /// How many forms of the row are before the innermost opening.
    pub start: usize,
    ghost counted: { start ≡ before_all open.items },
    ghost within: { start ≤ length forms.items },
}

/// Whether an opening has this bracket.
fn has_bracket(opening: Option<Bracket>, bracket: Bracket) -> bool
    ensures { IsTrue result ↔ (opening ≡ Some bracket) }
{
    match opening {
        Some(other) => other == bracket,
        None => false,
    }
}

/// Whether an opening is a `@`.
fn is_deref(opening: Option<Bracket>) -> bool
    ensures { IsTrue result ↔ (opening ≡ None) }
{
    match opening {
        Some(_) => false,
        None => true,
    }
}

/// Whether an opening is a bracket that may have no more than so many parts.
fn has_all(opening: Option<Bracket>, parts: usize) -> bool
    ensures { IsTrue result ↔ HasAll opening parts }
{
    match opening {
        Some(_) => parts >= MOST_ITEMS,
        None => false,
    }
}

impl OpenForms {
    ghost use Rattle.txs_reader.specs.OpenForms.{opens, inner, Closes, Folds};

    /// Nothing yet.
    pub fn new(alloc: Global) -> OpenForms
        ensures open { opens result ≡ [] }
        ensures forms { inner result ≡ [] }
    {
        OpenForms {
            open: Vec::new(alloc),
            forms: Vec::new(alloc),
            start: 0,
        }
    }

    /// Opens a bracket, or a `@`, at an offset.
    pub fn open(&mut self, bracket: Option<Bracket>, from: u32) -> Result<(), AllocError>
        requires { from + 1 < 2 ^ 32 }
        ensures open { IfOk result (λ _. opens self.new ≡ opens self.old ++ opened bracket from (inner self.old) ∷ []) }
        ensures forms { IfOk result (λ _. inner self.new ≡ []) }
    {
        let len = self.forms.len();
        self.open.push(OpenForm {
            bracket,
            from,
            before: len - self.start,
        })?;
        self.start = len;
        Ok(())
    }

    /// Whether the innermost opening has this bracket.
    pub fn fits(&self, bracket: Bracket) -> bool
        ensures yes { result ≡ true → FitsLast (opens self.now) bracket }
        ensures no { result ≡ false → ¬ FitsLast (opens self.now) bracket }
    {
        match self.open.last() {
            Some(last) => has_bracket(last.bracket, bracket),
            None => false,
        }
    }

    /// Whether the innermost opening is a `@`.
    fn ends_with_deref(&self) -> bool
        ensures yes { result ≡ true → EndsWithDeref (opens self.now) }
        ensures no { result ≡ false → ¬ EndsWithDeref (opens self.now) }
    {
        match self.open.last() {
            Some(last) => is_deref(last.bracket),
            None => false,
        }
    }

    /// Whether the innermost opening is a bracket with all the parts that it may have.
    pub fn is_full(&self) -> bool
        ensures yes { result ≡ true → IsFull (opens self.now) (inner self.now) }
        ensures no { result ≡ false → ¬ IsFull (opens self.now) (inner self.now) }
    {
        match self.open.last() {
            Some(last) => has_all(last.bracket, self.forms.len() - self.start),
            None => false,
        }
    }

    /// Takes the innermost bracket off, and makes a form of it.
    pub fn close(&mut self, bracket: Bracket, to: u32) -> Result<Form, AllocError>
        requires { FitsLast (opens self.old) bracket }
        ensures { IfOk result (λ form. Closes self.old self.new bracket (tree form) to) }
    {
        let parts = self.forms.split_off(self.start)?;
        match self.open.pop() {
            Some(OpenForm { from, before, .. }) => {
                self.start -= before;
                Ok(Form::Group(bracket, parts, Span { from, to }))
            }
            None => unreachable!(),
        }
    }

    /// Takes the innermost `@` off, and makes a list of it and the form.
    fn fold(&mut self, alloc: Global, form: Form) -> Result<Form, AllocError>
        requires { EndsWithDeref (opens self.old) }
        ensures { IfOk result (λ list. Folds self.old self.new (tree form) (tree list)) }
    {
        let Ok(name) = Name::from_bytes(alloc, b"deref") else {
            drop(form);
            return Err(AllocError);
        };
        let Ok(mut parts) = Vec::with_capacity(alloc, 2) else {
            drop(form);
            return Err(AllocError);
        };
        match self.open.pop() {
            Some(OpenForm { from, before, .. }) => {
                self.start -= before;
                let to = form.span().to;
                parts.push_reserved(Form::Symbol(name, Span { from, to: from + 1 }));
                parts.push_reserved(form);
                Ok(Form::Group(Bracket::Round, parts, Span { from, to }))
            }
            None => unreachable!(),
        }
    }

    /// Adds a whole form; each `@` right before it becomes whole with it.
    pub fn add(&mut self, alloc: Global, form: Form) -> Result<(), AllocError>
        ensures { IfOk result (λ _. (bytes rest : List ℕ) → Completes bytes (opens self.old) (inner self.old) (tree form) rest
            → Holds bytes (opens self.new) (inner self.new) rest) }
    {
        let mut form = form;
        while self.ends_with_deref() {
            form = self.fold(alloc, form)?;
        }
        self.forms.push(form)?;
        Ok(())
    }
}
