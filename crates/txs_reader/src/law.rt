//! What the definitions come to: of lines and columns, byte by byte; and of the two lines that point to a span.

ghost use Rattle.std.specs.Prelude.{◌≡◌, ◌≢◌, ◌+◌, ◌<◌, ◌≤◌, if◌then◌else◌, true, List, ℕ, length, slice_index};
ghost use Rattle.std.specs.List.{list_all};
ghost use Rattle.txs_reader.specs.Place.{begins_character, line_around, line_number, column_number};
ghost use Rattle.txs_reader.specs.Sign.{room};
ghost use Rattle.txs_reader.specs.Window.{total, left_part, right_part};
ghost use Rattle.txs_reader.specs.Pointed.{front, back, pointed};
ghost use Rattle.txs_reader.specs.Safe.{SafeLines, is_plain, plain_lines};

/// A text begins in line 1 and column 1. Behind a newline the next line begins, in column 1. Behind any
/// other byte the line is the same, and the column is one more where that byte begins a character.
pub fn places_follow()
    ensures first { (text : List ℕ) → (line_number text 0 ≡ 1) × (column_number text 0 ≡ 1) }
    ensures newline { (text : List ℕ) (k : ℕ) → k < length text → slice_index text k ≡ 10
        → (line_number text (k + 1) ≡ line_number text k + 1) × (column_number text (k + 1) ≡ 1) }
    ensures within { (text : List ℕ) (k : ℕ) → k < length text → slice_index text k ≢ 10
        → (line_number text (k + 1) ≡ line_number text k)
        × (column_number text (k + 1) ≡ column_number text k + (if begins_character (slice_index text k) then 1 else 0)) }
{}

/// A line of at most 72 characters of printed ASCII, and tabs, is shown as it is, with a blank or a tab for each
/// before the span, and a caret for each of the span, one at least.
pub fn plain_lines_stay()
    ensures { (text : List ℕ) (start end : ℕ) → list_all is_plain (line_around text start) ≡ true
        → length (line_around text start) ≤ 72 → pointed text start end ≡ plain_lines text start end }
{}

/// What is shown of any text is two lines of UTF-8, and no character of them has to be escaped: a terminal
/// obeys nothing of it.
pub fn lines_are_safe()
    ensures { (text : List ℕ) (start end : ℕ) → SafeLines (pointed text start end) }
{}

/// At most 72 columns of a line are shown. A line that takes no more is shown whole. Of any other what the span
/// begins with is shown, if it isn't the end of the line.
pub fn window_holds()
    ensures few { (text : List ℕ) (k : ℕ)
        → total room (left_part (front text k) (back text k)) + total room (right_part (front text k) (back text k)) ≤ 72 }
    ensures whole { (text : List ℕ) (k : ℕ) → total room (front text k) + total room (back text k) ≤ 72
        → (left_part (front text k) (back text k) ≡ front text k) × (right_part (front text k) (back text k) ≡ back text k) }
    ensures begins { (text : List ℕ) (k : ℕ) → 0 < length (back text k) → 0 < length (right_part (front text k) (back text k)) }
{}
