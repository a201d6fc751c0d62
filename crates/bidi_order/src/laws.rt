//! What holds of levels and order, for every line: functions with an empty body, whose contracts are the laws.
ghost use Rattle.std.specs.Prelude.{◌≡◌, ℕ, ◌<◌, ◌+◌, false, not, List, [], ◌∷◌, ◌++◌, length, Option, Some, None};
ghost use Rattle.std.specs.Prelude.{min, slice_range, slice_index, slice_index_or, IsTrue};
ghost use Rattle.bidi_text.specs.Clean.{cleaned_text};
ghost use Rattle.bidi_order.specs.DirectionalStatus.{is_odd};
ghost use Rattle.bidi_order.specs.Levels.{line_levels};
ghost use Rattle.bidi_class.specs.Class.{bidi_class};
ghost use Rattle.bidi_class.specs.declared.class.Class.TheVariants.{S};
ghost use Rattle.bidi_order.specs.Reset.{ResetKind, can_reset, is_reset_class, reset_levels};
ghost use Rattle.bidi_order.specs.Reset.ResetKind.{Separator};
ghost use Rattle.bidi_order.specs.Sequences.{levels_before_reset};
ghost use Rattle.bidi_order.specs.TwoLines.{Both, HoldsCleaned, ComparedLines, are_surrounding, one_first};
ghost use Rattle.bidi_order.specs.TwoLines.{one_labelled, one_line, one_second, other_first, other_labelled};
ghost use Rattle.bidi_order.specs.TwoLines.{other_line};
ghost use Rattle.bidi_order.specs.TwoLines.{other_second, whole_line};
ghost use Rattle.bidi_order.specs.VisualOrder.{is_left_of, least_level};
ghost use Rattle.bidi_order.specs.WithinLimit.{LabelledCharacter, is_value_initiator, is_within_limit};
ghost use Rattle.bidi_order.specs.WithinLimit.{line_characters, value_characters, without};

/// On a line within the limit a value that holds nothing may turn: with RLI instead of LRI, or LRI instead of RLI, all
/// levels before L1 are the same.
pub fn law_turn_initiator()
    ensures { (base k i j : ℕ) (prefix suffix : List LabelledCharacter)
        → IsTrue (is_value_initiator i) → IsTrue (is_value_initiator j)
        → IsTrue (is_within_limit base (prefix ++ (value_characters k i [] ++ suffix)))
        → levels_before_reset base (line_characters (prefix ++ (value_characters k i [] ++ suffix)))
        ≡ levels_before_reset base (line_characters (prefix ++ (value_characters k j [] ++ suffix))) }
{}

/// On a line within the limit leaving out what a value holds, which is a cleaned text, leaves the levels before L1 of
/// all other characters.
pub fn law_delete_content()
    ensures { (base k i : ℕ) (text : List ℕ) (prefix suffix : List LabelledCharacter) → IsTrue (is_value_initiator i)
        → IsTrue (is_within_limit base (prefix ++ (value_characters k i (cleaned_text text) ++ suffix)))
        → without (length prefix + 1) (length (cleaned_text text)) (levels_before_reset base
        (line_characters (prefix ++ (value_characters k i (cleaned_text text) ++ suffix))))
        ≡ levels_before_reset base (line_characters (prefix ++ (value_characters k i [] ++ suffix))) }
{}

/// L1 leaves the level of a character whose class is none of S, WS, LRI, RLI, FSI and PDI.
pub fn law_reset()
    ensures of_lines { (base : ℕ) (line : List ℕ) (i : ℕ) → i < length line
        → is_reset_class (bidi_class (slice_index line i)) ≡ false
        → slice_index_or (line_levels base line) i None ≡ slice_index_or (levels_before_reset base line) i None }
    ensures of_kinds { (base : ℕ) (kinds : List ResetKind) (levels : List (Option ℕ)) (i : ℕ)
        → can_reset (slice_index_or kinds i Separator) ≡ false
        → slice_index_or (reset_levels base kinds levels) i None ≡ slice_index_or levels i None }
{}

/// A character stands left of a later one exactly where the least level from the one to the other, these two included,
/// is even; of two characters that are kept one stands left of the other; one that is removed stands nowhere. From a
/// value's initiator to its PDI the least level is that of one of the two, on a line within the limit; where a
/// separator stands between, it is the base.
pub fn law_order()
    ensures by_least { (levels : List (Option ℕ)) (i j first last : ℕ) → i < j
        → slice_index_or levels i None ≡ Some first → slice_index_or levels j None ≡ Some last
        → is_left_of levels i j ≡ not (is_odd (least_level first (slice_range levels (i + 1) (j + 1)))) }
    ensures contrary { (levels : List (Option ℕ)) (i j first last : ℕ) → i < j
        → slice_index_or levels i None ≡ Some first → slice_index_or levels j None ≡ Some last
        → is_left_of levels j i ≡ not (is_left_of levels i j) }
    ensures at_value { (base k i first last : ℕ) (text : List ℕ) (prefix suffix : List LabelledCharacter)
        → IsTrue (is_value_initiator i)
        → IsTrue (is_within_limit base (prefix ++ (value_characters k i (cleaned_text text) ++ suffix)))
        → slice_index_or (line_levels base
        (line_characters (prefix ++ (value_characters k i (cleaned_text text) ++ suffix)))) (length prefix) None
        ≡ Some first
        → slice_index_or (line_levels base
        (line_characters (prefix ++ (value_characters k i (cleaned_text text) ++ suffix))))
        (length prefix + 1 + length (cleaned_text text)) None ≡ Some last
        → least_level first (slice_range (line_levels base
        (line_characters (prefix ++ (value_characters k i (cleaned_text text) ++ suffix))))
        (length prefix + 1) (length prefix + 1 + length (cleaned_text text) + 1)) ≡ min first last }
    ensures at_separator { (base : ℕ) (line : List ℕ) (i m j first : ℕ) → i < m → m < j → j < length line
        → slice_index_or (line_levels base line) i None ≡ Some first → bidi_class (slice_index line m) ≡ S
        → least_level first (slice_range (line_levels base line) (i + 1) (j + 1)) ≡ base }
    ensures removed { (levels : List (Option ℕ)) (i j : ℕ) → slice_index_or levels i None ≡ None
        → (is_left_of levels i j ≡ false) × (is_left_of levels j i ≡ false) }
{}

/// Two lines that differ in what their values hold, and in the directions of these, are both within the limit or
/// neither is. On such a line within it any two characters that are surrounding, or of values' blocks, stand in the
/// order of the other line; and within one line, any two characters of a block stand alike to a surrounding one or one
/// of another block, so that none of these stands between them.
pub fn law_same_line()
    ensures within { (base : ℕ) (line : List Both) → HoldsCleaned line
        → is_within_limit base (one_labelled line) ≡ is_within_limit base (other_labelled line) }
    ensures order { (base : ℕ) (c : ComparedLines) → HoldsCleaned (whole_line c) → IsTrue (are_surrounding c)
        → IsTrue (is_within_limit base (one_labelled (whole_line c)))
        → is_left_of (line_levels base (one_line (whole_line c))) (one_first c) (one_second c)
        ≡ is_left_of (line_levels base (other_line (whole_line c))) (other_first c) (other_second c) }
    ensures order_back { (base : ℕ) (c : ComparedLines) → HoldsCleaned (whole_line c) → IsTrue (are_surrounding c)
        → IsTrue (is_within_limit base (one_labelled (whole_line c)))
        → is_left_of (line_levels base (one_line (whole_line c))) (one_second c) (one_first c)
        ≡ is_left_of (line_levels base (other_line (whole_line c))) (other_second c) (other_first c) }
    ensures block { (base : ℕ) (c : ComparedLines) → HoldsCleaned (whole_line c) → IsTrue (are_surrounding c)
        → IsTrue (is_within_limit base (one_labelled (whole_line c)))
        → one_line (whole_line c) ≡ other_line (whole_line c)
        → is_left_of (line_levels base (one_line (whole_line c))) (one_first c) (one_second c)
        ≡ is_left_of (line_levels base (one_line (whole_line c))) (other_first c) (other_second c) }
{}
