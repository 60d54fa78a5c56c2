//! Names that no script defines: those of the forms and of the core operations.

ghost use Rattle.std.specs.Prelude.{◌≡◌};
ghost use Rattle.std.specs.List.{list_any};
ghost use Rattle.txs_value_data.specs.Operations.{op_name, operations};
ghost use Rattle.txs_value_data.specs.Places.{with_name};
ghost use Rattle.txs_resolve_expand.specs.Scope.{form_name, form_names, is_dot, may_bind};

use txs_value_data::Op;

/// The forms that have a name.
#[derive(Clone, Copy)]
pub enum FormName {
    Ns,
    Def,
    Defn,
    Future,
    If,
    Do,
    Let,
    Loop,
    Recur,
    When,
    WhenNot,
    IfNot,
    And,
    Or,
    Cond,
    Println,
    Dosync,
    Deref,
    RefSet,
    Alter,
    Commute,
    Ensure,
    Swap,
    Reset,
    Send,
    Ref,
    Atom,
    Agent,
}

/// All of them.
const FORMS: [FormName; 28] = [
    FormName::Ns,
    FormName::Def,
    FormName::Defn,
    FormName::Future,
    FormName::If,
    FormName::Do,
    FormName::Let,
    FormName::Loop,
    FormName::Recur,
    FormName::When,
    FormName::WhenNot,
    FormName::IfNot,
    FormName::And,
    FormName::Or,
    FormName::Cond,
    FormName::Println,
    FormName::Dosync,
    FormName::Deref,
    FormName::RefSet,
    FormName::Alter,
    FormName::Commute,
    FormName::Ensure,
    FormName::Swap,
    FormName::Reset,
    FormName::Send,
    FormName::Ref,
    FormName::Atom,
    FormName::Agent,
];

impl FormName {
    /// The name at the head of the list.
    fn name(self) -> &'static [u8]
        ensures { result.now ≡ form_name self }
    {
        match self {
            FormName::Ns => b"ns",
            FormName::Def => b"def",
            FormName::Defn => b"defn",
            FormName::Future => b"future",
            FormName::If => b"if",
            FormName::Do => b"do",
            FormName::Let => b"let",
            FormName::Loop => b"loop",
            FormName::Recur => b"recur",
            FormName::When => b"when",
            FormName::WhenNot => b"when-not",
            FormName::IfNot => b"if-not",
            FormName::And => b"and",
            FormName::Or => b"or",
            FormName::Cond => b"cond",
            FormName::Println => b"println",
            FormName::Dosync => b"dosync",
            FormName::Deref => b"deref",
            FormName::RefSet => b"ref-set",
            FormName::Alter => b"alter",
            FormName::Commute => b"commute",
            FormName::Ensure => b"ensure",
            FormName::Swap => b"swap!",
            FormName::Reset => b"reset!",
            FormName::Send => b"send",
            FormName::Ref => b"ref",
            FormName::Atom => b"atom",
            FormName::Agent => b"agent",
        }
    }
}

/// The form of this name, if there is one.
pub fn form_of(name: &[u8]) -> Option<FormName>
    ensures { result ≡ with_name form_name name.now form_names }
{
    for form in &FORMS {
        if form.name() == name {
            return Some(*form);
        }
    }
    None
}

/// The operation of this name, if there is one.
pub fn operation_of(name: &[u8]) -> Option<Op>
    ensures { result ≡ with_name op_name name.now operations }
{
    Op::from_name(name)
}

/// Whether there is a dot in the name.
pub(crate) fn has_dot(name: &[u8]) -> bool
    ensures { result ≡ list_any is_dot name.now }
{
    name.contains(&b'.')
}

/// Whether a local may have this name: it is that of no form, and has no dot.
#[tactic(auto, unfolding(crate::specs::Scope::may_bind))]
pub fn may_bind(name: &[u8]) -> bool
    ensures { result ≡ may_bind name.now }
{
    form_of(name).is_none() && !has_dot(name)
}
