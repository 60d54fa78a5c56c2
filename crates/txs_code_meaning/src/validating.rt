//! Whether a cell has a validator.

ghost use Rattle.std.specs.Prelude.{◌≡◌};
ghost use Rattle.txs_code_meaning.specs.Validating.{has_validator, is_validated};

use txs_value_cell::CellDefinition;

/// Whether a cell has a validator.
fn is_validated(cell: &CellDefinition) -> bool
    ensures { result ≡ is_validated cell.now }
{
    cell.validator.is_some()
}

/// Whether one of these cells has a validator: where none has, nothing is to be validated.
pub fn has_validator(cells: &[CellDefinition]) -> bool
    ensures { result ≡ has_validator cells.now }
{
    cells.iter().any(|cell| is_validated(cell))
}
