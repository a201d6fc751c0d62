//! What holds of the definitions, for every text: functions with an empty body, whose contracts are the laws.
ghost use Rattle.std.specs.Prelude.{◌≡◌, ℕ, ◌<◌, List, length, slice_index, IsTrue};
ghost use Rattle.bidi_text.specs.Clean.{cleaned_text, is_isolate_control};
ghost use Rattle.bidi_class.specs.Pairs.{is_in_pair};

/// Cleaning a cleaned text changes nothing, and each isolate control of a cleaned text is in a pair.
pub fn law_cleaned()
    ensures unchanged { (text : List ℕ) → cleaned_text (cleaned_text text) ≡ cleaned_text text }
    ensures paired { (text : List ℕ) (index : ℕ) → index < length (cleaned_text text)
        → IsTrue (is_isolate_control (slice_index (cleaned_text text) index))
        → IsTrue (is_in_pair (cleaned_text text) index) }
{}
