//! The names in scope, and what a name stands for.

ghost use Rattle.std.specs.Prelude.{◌≡◌, [], ◌∷◌, ◌<◌, ◌≤◌, ◌-◌, ◌+◌, ◌++◌, drop, length, map, reverse, take, Some, None, MatchResult, IfSome};
ghost use Rattle.txs_resolve_expand.specs.Scope.{Scope as AScope, with_local, with_locals, number_in, local_number, definition_of, is_current, meaning};
ghost use Rattle.txs_resolve_expand.specs.Viewed.{entries_of, lent, meant};
ghost use Rattle.txs_value_data.specs.Limits.{most_locals};

use crate::names::{FormName, form_of, has_dot, operation_of};
use indexmap::IndexMap;
use std::alloc::{AllocError, Global};
use std::marker::Model;
use txs_value_data::limits::MOST_LOCALS;
use txs_value_data::{CellId, Name, Op, Value};

/// What a name is defined as.
#[derive(Drop)]
pub enum Definition {
    /// A constant.
    Constant(Value),
    /// A cell.
    Cell(CellId),
    /// A function, by its number, and how many levels its body has, with those of the functions that it calls.
    Function(u16, u16),
}

/// What a name may be for.
#[derive(Clone, Copy)]
pub enum Found<'s> {
    /// A form.
    Form(FormName),
    /// Nothing: there is a dot in it.
    Dotted,
    /// A local, by its number.
    Local(u8),
    /// The function that is being defined.
    Current,
    /// What was defined before.
    Defined(&'s Definition),
    /// A core operation.
    Operation(Op),
    /// Nothing.
    Unknown,
}

/// The names in scope: of at most 200 locals, of what is defined, and of the function that is being defined.
/// Contracts see the names of the locals with the nearest first, and the definitions with the first first. A
/// local that a form hides has an empty name, which no symbol has. There is room for all locals from the
/// start, so that binding one wants no memory.
#[derive(Drop)]
pub struct Scope<'a> {
    locals: [&'a [u8]; MOST_LOCALS],
    count: usize,
    defined: IndexMap<&'a [u8], Definition>,
    current: Option<&'a Name>,
}

impl<'a> Model for Scope<'a> {
    ghost use Rattle.std.specs.Prelude.{◌≡◌, ◌≤◌, length, map, reverse, take};
    ghost use Rattle.std.specs.Coded.{codes};
    ghost use Rattle.txs_resolve_expand.specs.Scope.{Scope as AScope};
    ghost use Rattle.txs_resolve_expand.specs.Viewed.{entries_of, name_of};
    ghost use Rattle.txs_value_data.specs.contracts.value.Value as value;
    ghost use Rattle.txs_value_data.specs.Limits.{most_locals};

    ghost Value = { AScope };

    ghost coded = { Prim.hlevel (codes, value.the_row.coded) };

    ghost view = { λ s. record { locals = reverse (map (λ n. n.now) (take s.count s.locals)); defined = entries_of s.defined.entries; current = name_of s.current } };

    ghost invariant = { λ s. (s.count ≤ most_locals) × (length s.locals ≡ most_locals) };
}

/// The number of the last of these names that is this one: they are numbered from 0.
fn number_in(names: &[&[u8]], name: &Name) -> Option<usize>
    ensures number { result ≡ number_in name.now (reverse (map (λ n. n.now) names.now)) }
    ensures below { IfSome result (λ i. i < length names.now) }
{
    let mut i = names.len();
    while i > 0 {
        i -= 1;
        let here = &names[i];
        if name.as_bytes() == *here {
            return Some(i);
        }
    }
    None
}

impl<'a> Scope<'a> {
    /// Nothing is in scope.
    pub fn new(alloc: Global) -> Scope<'a>
        ensures { result ≡ record { locals = []; defined = []; current = None } }
    {
        Scope {
            locals: [b"".as_slice(); MOST_LOCALS],
            count: 0,
            defined: IndexMap::new(alloc),
            current: None,
        }
    }

    /// How many locals are in scope.
    pub fn len(&self) -> usize
        ensures { result ≡ length self.now.locals }
    {
        let Scope { count, .. } = self;
        *count
    }

    /// Binds the name of a local, which is nearer than the others.
    pub fn push(&mut self, name: &'a [u8])
        requires { length self.old.locals < most_locals }
        ensures { self.new ≡ with_local name.now self.old }
    {
        self.locals[self.count] = name;
        self.count += 1;
    }

    /// Leaves the outermost `len` locals in scope.
    pub fn truncate(&mut self, len: usize)
        ensures { self.new ≡ with_locals (drop (length self.old.locals - len) self.old.locals) self.old }
    {
        self.count = self.count.min(len);
    }

    /// The function of this name is being defined.
    pub fn begin(&mut self, name: &'a Name)
        ensures { self.new ≡ record { locals = self.old.locals; defined = self.old.defined; current = Some name.now } }
    {
        self.current = Some(name);
    }

    /// No function is being defined, and no local is in scope.
    pub fn end(&mut self)
        ensures { self.new ≡ record { locals = []; defined = self.old.defined; current = None } }
    {
        self.count = 0;
        self.current = None;
    }

    /// Defines a name that isn't defined yet.
    ///
    /// # Errors
    /// Where there was no memory for it: the scope is as before.
    pub fn define(&mut self, name: &'a Name, what: Definition) -> Result<(), AllocError>
        requires new { definition_of name.now self.old.defined ≡ None }
        ensures { MatchResult result (λ _. self.new ≡ record { locals = self.old.locals; defined = self.old.defined ++ (record { name = name.now; what = what }) ∷ []; current = self.old.current }) (λ _. self.new ≡ self.old) }
    {
        self.defined.insert(name.as_bytes(), what)?;
        Ok(())
    }

    /// The number of the nearest local of this name.
    fn find(&self, name: &Name) -> Option<u8>
        ensures { result ≡ local_number name.now self.now }
    {
        match number_in(&self.locals[..self.count], name) {
            Some(i) => Some(i as u8),
            None => None,
        }
    }

    /// What the name is defined as.
    pub fn definition(&self, name: &Name) -> Option<&Definition>
        ensures { lent result ≡ definition_of name.now self.now.defined }
    {
        self.defined.get(name.as_bytes())
    }

    /// Whether the function that is being defined has this name.
    fn is_current(&self, name: &Name) -> bool
        ensures { result ≡ is_current name.now self.now.current }
    {
        match self.current {
            None => false,
            Some(n) => n.as_bytes() == name.as_bytes(),
        }
    }

    /// What the name stands for: a form, else the nearest local, else the function that is being defined or an
    /// earlier definition, else a core operation.
    pub fn lookup(&self, name: &Name) -> Found<'_>
        ensures { meant result ≡ meaning name.now self.now }
    {
        let bytes = name.as_bytes();
        if let Some(form) = form_of(bytes) {
            return Found::Form(form);
        }
        if has_dot(bytes) {
            return Found::Dotted;
        }
        if let Some(i) = self.find(name) {
            return Found::Local(i);
        }
        if self.is_current(name) {
            return Found::Current;
        }
        if let Some(d) = self.definition(name) {
            return Found::Defined(d);
        }
        match operation_of(bytes) {
            Some(op) => Found::Operation(op),
            None => Found::Unknown,
        }
    }
}
