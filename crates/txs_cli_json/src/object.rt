//! Objects of JSON, member by member.

ghost use Rattle.std.specs.Prelude.{◌≡◌, ◌≤◌, ◌+◌, ◌++◌, List, ℕ, false, OnOk, OnErr};
ghost use Rattle.std.specs.Str.Lossy.{utf8_lossy};
ghost use Rattle.serde_json.specs.Data.{object, string, number, unsigned, boolean, null, no_members, depth, members_depth, put as with_member};
ghost use Rattle.serde_json.specs.View.{view, members_view};
ghost use Rattle.serde_json.specs.Written.{has_float, members_have_float};
ghost use Rattle.txs_cli_json.specs.Json.{AddsLine, IsLineOf, typed};

use serde_json::{Map, Value};
use std::alloc::{AllocError, Global};

/// An object whose members nest no deeper than so many levels, and have no numbers with fractions.
#[derive(Drop)]
pub(crate) struct Object<const N: usize> {
    pub(crate) alloc: Global,
    members: Map<String, Value>,
    ghost shallow: { members_depth (members_view members.entries) ≤ N },
    ghost whole: { members_have_float (members_view members.entries) ≡ false },
}

impl<const N: usize> Object<N> {
    /// An object without members.
    pub(crate) fn new(alloc: Global) -> Object<N>
        ensures { members_view result.members.entries ≡ no_members }
    {
        Object {
            alloc,
            members: Map::new(alloc),
        }
    }

    /// Puts a member in.
    pub(crate) fn put(&mut self, name: &str, value: Value) -> Result<(), AllocError>
        requires shallow { depth (view value) ≤ N }
        requires whole { has_float (view value) ≡ false }
        ensures { OnOk result (members_view self.new.members.entries ≡ with_member name.now (view value) (members_view self.old.members.entries)) }
    {
        serde_json::put(&mut self.members, self.alloc, name, value)
    }

    /// Puts a number in.
    pub(crate) fn put_number(&mut self, name: &str, n: u64) -> Result<(), AllocError>
        ensures { OnOk result (members_view self.new.members.entries ≡ with_member name.now (number (unsigned n)) (members_view self.old.members.entries)) }
    {
        self.put(name, Value::from(n))
    }

    /// Puts a truth value in.
    pub(crate) fn put_truth(&mut self, name: &str, b: bool) -> Result<(), AllocError>
        ensures { OnOk result (members_view self.new.members.entries ≡ with_member name.now (boolean b) (members_view self.old.members.entries)) }
    {
        self.put(name, Value::Bool(b))
    }

    /// Puts `null` in.
    pub(crate) fn put_null(&mut self, name: &str) -> Result<(), AllocError>
        ensures { OnOk result (members_view self.new.members.entries ≡ with_member name.now null (members_view self.old.members.entries)) }
    {
        self.put(name, Value::Null)
    }

    /// Puts a text in.
    pub(crate) fn put_text(&mut self, name: &str, text: &str) -> Result<(), AllocError>
        ensures { OnOk result (members_view self.new.members.entries ≡ with_member name.now (string text.now) (members_view self.old.members.entries)) }
    {
        let value = Value::try_from_str(self.alloc, text)?;
        self.put(name, value)
    }

    /// Puts bytes in, as a text: with the replacement character for each part that is no UTF-8.
    pub(crate) fn put_bytes(&mut self, name: &str, bytes: &[u8]) -> Result<(), AllocError>
        ensures { OnOk result (members_view self.new.members.entries ≡ with_member name.now (string (utf8_lossy bytes.now)) (members_view self.old.members.entries)) }
    {
        let text = String::from_utf8_lossy(self.alloc, bytes)?;
        self.put(name, Value::String(text))
    }

    /// The object as a value.
    pub(crate) fn into_value(self) -> Value
        ensures shallow { depth (view result) ≤ N + 1 }
        ensures whole { has_float (view result) ≡ false }
        ensures view { view result ≡ object (members_view self.entry.members.entries) }
    {
        let Object { alloc: _, members } = self;
        Value::Object(members)
    }

    /// Appends the line of the object, with its type. After an error nothing is appended.
    pub(crate) fn write(self, out: &mut Vec<u8>, kind: &str) -> Result<(), AllocError>
        requires { N ≤ 100 }
        ensures json { OnOk result (AddsLine kind.now out.old.items out.new.items) }
        ensures ok { OnOk result ((line : List ℕ) × IsLineOf (typed kind.now (members_view self.entry.members.entries)) line × (out.new.items ≡ out.old.items ++ line)) }
        ensures err { OnErr result (out.new.items ≡ out.old.items) }
    {
        let mut object = self;
        object.put_text("type", kind)?;
        write_line(out, object)
    }
}

/// Appends the line of an object. After an error nothing is appended.
fn write_line<const N: usize>(out: &mut Vec<u8>, line: Object<N>) -> Result<(), AllocError>
    requires { N ≤ 100 }
    ensures ok { OnOk result ((text : List ℕ) × IsLineOf (object (members_view line.entry.members.entries)) text × (out.new.items ≡ out.old.items ++ text)) }
    ensures err { OnErr result (out.new.items ≡ out.old.items) }
{
    let alloc = line.alloc;
    let mut text = line.into_value().to_vec(alloc)?;
    text.push(b'\n')?;
    out.extend_from_slice(text.as_slice())
}
