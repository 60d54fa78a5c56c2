//! What a script computes with.

ghost use Rattle.std.specs.Prelude.{◌≡◌, ◌≤◌, ◌<◌, ◌^◌, ◌↔◌, ◌+◌, ◌-◌, ◌++◌, ◌∷◌, [], length, take, drop, string_bytes, IfOk, IsTrue};
ghost use Rattle.std.specs.List.{list_all};
ghost use Rattle.txs_value_data.specs.Limits.{IsVector, most_items, most_text};
ghost use Rattle.txs_value_data.specs.Names.{IsName, is_symbol_byte};
ghost use Rattle.txs_value_data.specs.Numbers.{IsNumber};
ghost use Rattle.txs_value_data.specs.PlainValue.{depth};
ghost use Rattle.txs_value_data.specs.View.{plain_of, plains_of, vector_items};
ghost use Rattle.txs_value_data.specs.declared.value.Value.TheVariants.{Int};

use crate::items::no_deeper;
use crate::row::drop_numbers;
use std::alloc::{AllocError, Global};
use std::marker::Model;
use std::sync::Arc;

/// The kinds of cells that threads share.
#[derive(Clone, Copy, PartialEq, Eq)]
pub enum CellKind {
    Ref,
    Atom,
    Agent,
}

/// A cell: its kind, and its number among all cells by order of definition, from 0.
#[derive(Clone, Copy, PartialEq, Eq)]
pub struct CellId {
    pub kind: CellKind,
    pub number: u16,
}

/// The name of a keyword or a symbol: 1 to 255 symbol characters, which are ASCII.
pub struct Name {
    shared: Arc<Vec<u8>>,
}

// A name, a text, a vector and its rows are dropped by calls that are proved here, so that no crate above proves
// them again.
impl Drop for Name {
    fn drop(self) {
        let Name { shared } = self;
        drop(shared);
    }
}

impl Model for Name {
    ghost use Rattle.std.specs.Prelude.{List, ℕ};
    ghost use Rattle.txs_value_data.specs.Names.{IsName};

    ghost Value = { List ℕ };

    ghost view = { λ n. n.shared.value.items };

    ghost invariant = { λ n. IsName n.shared.value.items };
}

/// A text of at most 65,535 bytes of UTF-8.
pub struct Text {
    shared: Arc<String>,
}

impl Drop for Text {
    fn drop(self) {
        let Text { shared } = self;
        drop(shared);
    }
}

impl Model for Text {
    ghost use Rattle.std.specs.Prelude.{List, ℕ, string_bytes, ◌≤◌, length};
    ghost use Rattle.txs_value_data.specs.Limits.{most_text};

    ghost Value = { List ℕ };

    ghost view = { λ t. string_bytes t.shared.value };

    ghost invariant = { λ t. length (string_bytes t.shared.value) ≤ most_text };
}

/// A byte that names are made of: an ASCII letter, a digit or one of `* + ! - _ ' ? < > = .`
#[tactic(auto, unfolding(crate::specs::Names::is_symbol_byte))]
pub fn is_symbol_byte(b: u8) -> bool
    ensures { result ≡ is_symbol_byte b }
{
    matches!(b, b'a'..=b'z' | b'A'..=b'Z')
        || b.is_ascii_digit()
        || matches!(
            b,
            b'*' | b'+' | b'!' | b'-' | b'_' | b'\'' | b'?' | b'<' | b'>' | b'=' | b'.'
        )
}

/// Whether all bytes are of those that names are made of.
fn all_symbol_bytes(bytes: &[u8]) -> bool
    ensures { result ≡ list_all is_symbol_byte bytes.now }
{
    bytes.iter().all(|b| is_symbol_byte(*b))
}

/// How many bytes a name has at most.
const MOST_NAME: usize = 255;

/// Whether the bytes are a name: 1 to 255 symbol characters.
pub fn is_name(bytes: &[u8]) -> bool
    ensures { IsTrue result ↔ IsName bytes.now }
{
    !bytes.is_empty() && bytes.len() <= MOST_NAME && all_symbol_bytes(bytes)
}

impl Name {
    /// The name that these bytes are.
    pub fn from_bytes(alloc: Global, bytes: &[u8]) -> Result<Name, AllocError>
        requires { IsName bytes.now }
        ensures { IfOk result (λ n. n ≡ bytes.now) }
    {
        let shared = Arc::new(alloc, Vec::from_slice(alloc, bytes)?)?;
        Ok(Name { shared })
    }

    /// The bytes, 1 to 255 of them.
    pub fn as_bytes(&self) -> &[u8]
        ensures value { result.now ≡ self.now }
        ensures name { IsName self.now }
    {
        self.shared.as_slice()
    }

    /// The same name, in the same memory.
    pub fn share(&self) -> Result<Name, AllocError>
        ensures { IfOk result (λ n. n ≡ self.now) }
    {
        Ok(Name {
            shared: Arc::try_clone(&self.shared)?,
        })
    }
}

impl Text {
    /// The text that this string is.
    pub fn from_string(alloc: Global, text: String) -> Result<Text, AllocError>
        requires { length (string_bytes text) ≤ most_text }
        ensures { IfOk result (λ t. t ≡ string_bytes text) }
    {
        Ok(Text {
            shared: Arc::new(alloc, text)?,
        })
    }

    /// The text, of at most 65,535 bytes.
    pub fn as_str(&self) -> &str
        ensures { result.now ≡ self.now }
    {
        self.shared.as_str()
    }

    /// The same text, in the same memory.
    pub fn share(&self) -> Result<Text, AllocError>
        ensures { IfOk result (λ t. t ≡ self.now) }
    {
        Ok(Text {
            shared: Arc::try_clone(&self.shared)?,
        })
    }
}

/// A value: `nil`, a truth value, a whole number of 64 bits, a keyword, a text, a vector, or a cell.
#[cycle(value)]
pub enum Value {
    Nil,
    Truth(bool),
    Int(i64),
    Key(Name),
    Text(Text),
    Vector(Items),
    Cell(CellId),
}

impl Drop for Value {
    #[cycle(value_drop)]
    #[inline(always)]
    fn drop(self) {
        match self {
            Value::Key(name) => drop(name),
            Value::Text(text) => drop(text),
            Value::Vector(items) => drop(items),
            Value::Nil | Value::Truth(_) | Value::Int(_) | Value::Cell(_) => {}
        }
    }
}

impl Value {
    /// The items of the vector that the value is, none where it is no vector.
    #[inline(always)]
    pub fn into_items(self) -> Option<Items>
        ensures { result ≡ vector_items self }
    {
        match self {
            Value::Vector(items) => Some(items),
            other => {
                drop(other);
                None
            }
        }
    }

    /// The number that the value is.
    #[inline(always)]
    pub(crate) fn into_number(self) -> i64
        requires { IsNumber (plain_of self) }
        ensures { self ≡ Int result }
    {
        match self {
            Value::Int(n) => n,
            _ => unreachable!(),
        }
    }
}

/// Values in a row, and whether it is known that all are numbers.
#[cycle(value)]
pub(crate) struct Row {
    pub(crate) items: Vec<Value>,
    pub(crate) are_numbers: bool,
}

// Numbers are freed with no test of each.
impl Drop for Row {
    #[cycle(value_drop)]
    fn drop(self) {
        let Row { items, are_numbers } = self;
        if are_numbers {
            drop_numbers(items);
        } else {
            drop(items);
        }
    }
}

/// A row of values that several vectors may share.
#[cycle(value)]
#[derive(Drop)]
pub(crate) struct Leaf {
    pub(crate) shared: Arc<Row>,
}

/// At most 32 leaves of 32 values each, which several vectors may share.
#[cycle(value)]
#[derive(Drop)]
pub(crate) struct Branch {
    pub(crate) shared: Arc<Vec<Leaf>>,
}

/// At most 64 branches of 1,024 values each, and behind them at most 32 leaves of 32 values each.
#[cycle(value)]
#[derive(Drop)]
pub(crate) struct Rows {
    pub(crate) branches: Vec<Branch>,
    pub(crate) leaves: Vec<Leaf>,
}

/// Rows that several vectors may share.
#[cycle(value)]
pub(crate) struct Root {
    pub(crate) shared: Arc<Rows>,
}

impl Drop for Root {
    #[cycle(value_drop)]
    fn drop(self) {
        let Root { shared } = self;
        drop(shared);
    }
}

/// The rows of a vector, where it has any, and at most 32 values behind them.
#[cycle(value)]
#[derive(Drop)]
pub(crate) struct Body {
    pub(crate) root: Option<Root>,
    pub(crate) tail: Row,
}

/// The items of a vector: at most 65,535, none of them of depth 32. Beside the body stands a number
/// that no item is deeper than, which is 0 of numbers alone.
#[cycle(value)]
pub struct Items {
    pub(crate) shared: Arc<(Body, u8)>,
}

impl Drop for Items {
    #[cycle(value_drop)]
    fn drop(self) {
        let Items { shared } = self;
        drop(shared);
    }
}

impl Model for Row {
    ghost use Rattle.std.specs.Prelude.{List, IsTrue};
    ghost use Rattle.std.specs.Coded.{coded_list};
    ghost use Rattle.txs_value_data.specs.Numbers.{AreNumbers};
    ghost use Rattle.txs_value_data.specs.PlainValue.{PlainValue, coded_plain_value, row_size};

    ghost Value = { List PlainValue };

    ghost coded = { coded_list coded_plain_value };

    ghost use Rattle.txs_value_data.specs.View.{plains_of};

    ghost view = { λ a. plains_of a.items.items };

    ghost invariant = { λ a. IsTrue a.are_numbers → AreNumbers (plains_of a.items.items) };

    ghost size = { row_size };

    ghost use Rattle.txs_value_data.specs.Falls.{items_fall};

    ghost size_decreases = { λ a h. items_fall a.items.items };
}

impl Model for Leaf {
    ghost use Rattle.std.specs.Prelude.{List};
    ghost use Rattle.std.specs.Coded.{coded_list};
    ghost use Rattle.txs_value_data.specs.PlainValue.{PlainValue, coded_plain_value, leaf_size};

    ghost Value = { List PlainValue };

    ghost coded = { coded_list coded_plain_value };

    ghost view = { λ a. a.shared.value };

    ghost size = { leaf_size };

    ghost use Rattle.txs_value_data.specs.Falls.{leaf_falls};

    ghost size_decreases = { λ a h. leaf_falls a.shared.value };
}

impl Model for Branch {
    ghost use Rattle.std.specs.Prelude.{List};
    ghost use Rattle.std.specs.Coded.{coded_list};
    ghost use Rattle.txs_value_data.specs.PlainValue.{PlainValue, coded_plain_value, branch_size};
    ghost use Rattle.txs_value_data.specs.Rows.{joined, AreRows};

    ghost Value = { List PlainValue };

    ghost coded = { coded_list coded_plain_value };

    ghost view = { λ a. joined a.shared.value.items };

    ghost invariant = { λ a. AreRows 32 32 a.shared.value.items };

    ghost size = { branch_size };

    ghost use Rattle.txs_value_data.specs.Falls.{leaves_fall};

    ghost size_decreases = { λ a h. leaves_fall a.shared.value.items };
}

impl Model for Rows {
    ghost use Rattle.std.specs.Prelude.{List, ◌++◌};
    ghost use Rattle.std.specs.Coded.{coded_list};
    ghost use Rattle.txs_value_data.specs.PlainValue.{PlainValue, coded_plain_value, rows_size};
    ghost use Rattle.txs_value_data.specs.Rows.{joined, AreRows};

    ghost Value = { List PlainValue };

    ghost coded = { coded_list coded_plain_value };

    ghost view = { λ a. joined a.branches.items ++ joined a.leaves.items };

    ghost invariant = { λ a. AreRows 1024 64 a.branches.items × AreRows 32 32 a.leaves.items };

    ghost size = { rows_size };

    ghost use Rattle.txs_value_data.specs.Falls.{rows_fall};

    ghost size_decreases = { λ a h. rows_fall a.branches.items a.leaves.items };
}

impl Model for Root {
    ghost use Rattle.std.specs.Prelude.{List};
    ghost use Rattle.std.specs.Coded.{coded_list};
    ghost use Rattle.txs_value_data.specs.PlainValue.{PlainValue, coded_plain_value, root_size};

    ghost Value = { List PlainValue };

    ghost coded = { coded_list coded_plain_value };

    ghost view = { λ a. a.shared.value };

    ghost size = { root_size };

    ghost use Rattle.txs_value_data.specs.Falls.{root_falls};

    ghost size_decreases = { λ a h. root_falls a.shared.value };
}

impl Model for Body {
    ghost use Rattle.std.specs.Prelude.{List, ◌++◌, ◌≤◌, length};
    ghost use Rattle.std.specs.Coded.{coded_list};
    ghost use Rattle.txs_value_data.specs.PlainValue.{PlainValue, coded_plain_value, body_size};
    ghost use Rattle.txs_value_data.specs.Rows.{stored};

    ghost Value = { List PlainValue };

    ghost coded = { coded_list coded_plain_value };

    ghost view = { λ a. stored a.root ++ a.tail };

    ghost invariant = { λ a. length a.tail ≤ 32 };

    ghost size = { body_size };

    ghost use Rattle.txs_value_data.specs.Falls.{body_falls};

    ghost size_decreases = { λ a h. body_falls a };
}

impl Model for Items {
    ghost use Rattle.std.specs.Prelude.{List, ◌≡◌, ◌≤◌};
    ghost use Rattle.std.specs.Coded.{coded_list};
    ghost use Rattle.txs_value_data.specs.Numbers.{AreNumbers};
    ghost use Rattle.txs_value_data.specs.PlainValue.{PlainValue, coded_plain_value, items_size, row_depth, plain_row};

    ghost Value = { List PlainValue };

    ghost coded = { coded_list coded_plain_value };

    ghost view = { λ a. a.shared.value.0 };

    ghost use Rattle.txs_value_data.specs.Limits.{IsVector};

    ghost invariant = { λ a. IsVector a.shared.value.0
        × (row_depth (plain_row a.shared.value.0) ≤ a.shared.value.1)
        × (a.shared.value.1 ≡ 0 → AreNumbers a.shared.value.0) };

    ghost size = { items_size };

    ghost use Rattle.txs_value_data.specs.Falls.{items_fall_whole};

    ghost size_decreases = { λ a h. items_fall_whole a.shared.value.0 };
}

// Each operation changes in place what no other vector shares, else a copy of the few rows that change. They stand
// beside the type, since what has a drop of its own is taken apart here alone. Where there is no memory for a copy, the
// item that was to go in is dropped by a call: that is one step of a proof, where going out of scope is one for each kind
// of value.
impl Items {
    /// One more item at the end.
    #[inline(always)]
    pub fn conj(self, alloc: Global, item: Value) -> Result<Items, AllocError>
        requires room { length self < most_items }
        requires shallow { depth (plain_of item) ≤ 31 }
        ensures { IfOk result (λ v. v ≡ self ++ plain_of item ∷ []) }
    {
        let deep = no_deeper(&item);
        let Items { mut shared } = self;
        let Ok(kept) = Arc::make_mut(&mut shared) else {
            drop(item);
            return Err(AllocError);
        };
        kept.0.push(alloc, item)?;
        kept.1 = kept.1.max(deep);
        Ok(Items { shared })
    }

    /// An item in the place of another.
    #[inline(always)]
    pub fn assoc(self, alloc: Global, place: usize, item: Value) -> Result<Items, AllocError>
        requires there { place < length self }
        requires shallow { depth (plain_of item) ≤ 31 }
        ensures { IfOk result (λ v. v ≡ take place self ++ plain_of item ∷ drop (place + 1) self) }
    {
        let item_deep = no_deeper(&item);
        let Items { mut shared } = self;
        let Ok(kept) = Arc::make_mut(&mut shared) else {
            drop(item);
            return Err(AllocError);
        };
        kept.0.set(alloc, place, item)?;
        kept.1 = kept.1.max(item_deep);
        Ok(Items { shared })
    }

    /// All items but the last.
    pub fn pop(self, alloc: Global) -> Result<Items, AllocError>
        requires { 0 < length self }
        ensures { IfOk result (λ v. v ≡ take (length self - 1) self) }
    {
        let Items { mut shared } = self;
        let kept = Arc::make_mut(&mut shared)?;
        kept.0.pop(alloc)?;
        Ok(Items { shared })
    }
}
