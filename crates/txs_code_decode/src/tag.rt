//! The bytes that say what is behind them.

ghost use Rattle.std.specs.Prelude.{◌≡◌};
ghost use Rattle.txs_value_data.specs.Places.{nth};
ghost use Rattle.txs_code_decode.specs.CellForm.{validator_tags};
ghost use Rattle.txs_code_decode.specs.InstrForm.{callee_tags};
ghost use Rattle.txs_code_decode.specs.ValueForm.{tags};

/// What a value is.
#[derive(Clone, Copy)]
pub(crate) enum Tag {
    Nil,
    False,
    True,
    Int,
    Key,
    Text,
    Vector,
    Cell,
}

/// What a callee is.
#[derive(Clone, Copy)]
pub(crate) enum CalleeTag {
    Core,
    Function,
}

/// Whether a cell has a validator.
#[derive(Clone, Copy)]
pub(crate) enum ValidatorTag {
    Nothing,
    Callee,
}

impl Tag {
    /// The tag of this byte, if there is one.
    pub(crate) fn from_byte(byte: u8) -> Option<Tag>
        ensures { result ≡ nth tags byte }
    {
        match byte {
            0 => Some(Tag::Nil),
            1 => Some(Tag::False),
            2 => Some(Tag::True),
            3 => Some(Tag::Int),
            4 => Some(Tag::Key),
            5 => Some(Tag::Text),
            6 => Some(Tag::Vector),
            7 => Some(Tag::Cell),
            _ => None,
        }
    }
}

impl CalleeTag {
    /// The tag of this byte, if there is one.
    pub(crate) fn from_byte(byte: u8) -> Option<CalleeTag>
        ensures { result ≡ nth callee_tags byte }
    {
        match byte {
            0 => Some(CalleeTag::Core),
            1 => Some(CalleeTag::Function),
            _ => None,
        }
    }
}

impl ValidatorTag {
    /// The tag of this byte, if there is one.
    pub(crate) fn from_byte(byte: u8) -> Option<ValidatorTag>
        ensures { result ≡ nth validator_tags byte }
    {
        match byte {
            0 => Some(ValidatorTag::Nothing),
            1 => Some(ValidatorTag::Callee),
            _ => None,
        }
    }
}
