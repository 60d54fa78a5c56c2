//! Laws of what the machine does.

ghost use Rattle.txs_code_meaning.specs.FormAsks.{FormsAskAsTold};
ghost use Rattle.txs_code_meaning.specs.Laws.{AsksOnce};

/// The law that no turn asks twice: it takes one exchange at most, and none where it waits with its ask.
pub fn turn_asks_once()
    ensures { AsksOnce }
{}

/// The law that each form on cells asks about its cell what its row in the table of forms says (`CellForm::rule`), and nothing else.
pub fn forms_ask_as_told()
    ensures { FormsAskAsTold }
{}
