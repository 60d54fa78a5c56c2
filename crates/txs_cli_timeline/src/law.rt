//! What the definition of escaped texts comes to.

ghost use Rattle.std.specs.Prelude.{◌≡◌, true, List, ℕ};
ghost use Rattle.std.specs.List.{list_all};
ghost use Rattle.txs_cli_timeline.specs.Entities.{is_plain, only_entities};
ghost use Rattle.txs_cli_timeline.specs.Escaped.{escaped};

/// An escaped text has no `<`, `>` or quote, nothing hidden or forbidden in XML, and no `&` but that of an entity.
pub fn escaped_is_text()
    ensures plain { (text : List ℕ) → list_all is_plain (escaped text) ≡ true }
    ensures entities { (text : List ℕ) → only_entities (escaped text) ≡ true }
{}
