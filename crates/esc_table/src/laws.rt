//! What escaped texts do to the state of a reader, for every table and reader.
ghost use Rattle.std.specs.Prelude.{◌≡◌, ℕ, Bool, List, Option, None, Some, [], ◌∷◌};
ghost use Rattle.std.specs.List.{flat_map};
ghost use Rattle.esc_table.specs.EscapedText.{escaped_text};
ghost use Rattle.esc_table.specs.RowText.{row_text};
ghost use Rattle.esc_table.specs.StateAfter.{KeepsStates};

use crate::table::Table;

/// Where the text of every character keeps a set of states, so does the text of every list of
/// characters.
///
/// It holds of any texts that stand for characters, by a table or not, of any step from a state and
/// a character to a state or a fault, and of any set of states. So whoever shows of the characters
/// that they keep the states of a place has shown it of every value that is escaped there.
pub fn law_joined_texts_keep_states<S>()
    ensures { (form : ℕ → List ℕ) (next : S → ℕ → Option S) (kept : S → Bool)
        → ((c : ℕ) → KeepsStates next kept (form c))
        → (text : List ℕ) → KeepsStates next kept (flat_map form text) }
{}

/// Where the text of every row and every character without a row keep a set of states, so does
/// every text escaped by the table.
pub fn law_escaped_text_keeps_states<S, const N: usize>(table: &Table<N>)
    ensures { (next : S → ℕ → Option S) (kept : S → Bool)
        → ((c : ℕ) (to : List ℕ) → row_text table.now c ≡ Some to → KeepsStates next kept to)
        → ((c : ℕ) → row_text table.now c ≡ None → KeepsStates next kept (c ∷ []))
        → (text : List ℕ) → KeepsStates next kept (escaped_text table.now text) }
{}
