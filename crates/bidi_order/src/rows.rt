//! Lines whose levels and order are known: worked examples of the definitions, which the checker computes.
ghost use Rattle.std.specs.Prelude.{◌≡◌, ℕ, ◌<◌, ◌+◌, true, false, List, [], ◌∷◌, ◌++◌, length, Some};
ghost use Rattle.std.specs.Prelude.{IsTrue, codes};
ghost use Rattle.soy_base.specs.declared.direction.Dir.TheVariants.{Ltr, Rtl};
ghost use Rattle.bidi_class.specs.Class.{bidi_class};
ghost use Rattle.bidi_text.specs.Clean.{cleaned_text};
ghost use Rattle.bidi_order.specs.Levels.{line_levels};
ghost use Rattle.bidi_order.specs.Lines.{lines};
ghost use Rattle.bidi_order.specs.TwoLines.{is_surrounding, other_labelled, other_line};
ghost use Rattle.bidi_order.specs.VisualOrder.{is_left_of};
ghost use Rattle.bidi_order.specs.WithinLimit.{is_value_initiator, is_within_limit};
ghost use Rattle.bidi_order.specs.WorkedLines.{auto_line, auto_pieces, cut_line, cut_pieces, empty_line, hebrew};
ghost use Rattle.bidi_order.specs.WorkedLines.{line_of, nested_line, nested_pieces, other_line_of, override_line};
ghost use Rattle.bidi_order.specs.WorkedLines.{override_pieces, value_piece};
ghost use Rattle.bidi_order.specs.TwoLines.Both.{Shared};
ghost use Rattle.soy_base.specs.Piece.Piece.{Static};

/// Levels of lines of seven kinds: an isolate, a digit, white space, brackets, a separator of segments behind an
/// isolate, a direction that is found in an isolate, and a terminator behind a digit.
pub fn law_levels_rows()
    ensures isolate { line_levels 0 (0x61 ∷ 0x2067 ∷ 0x5D0 ∷ 0x2069 ∷ 0x62 ∷ [])
        ≡ Some 0 ∷ Some 0 ∷ Some 1 ∷ Some 0 ∷ Some 0 ∷ [] }
    ensures digit { line_levels 0 (0x5D0 ∷ 0x31 ∷ []) ≡ Some 1 ∷ Some 2 ∷ [] }
    ensures reset { line_levels 1 (0x61 ∷ 0x20 ∷ 0x2066 ∷ 0x62 ∷ 0x2069 ∷ [])
        ≡ Some 2 ∷ Some 1 ∷ Some 1 ∷ Some 2 ∷ Some 1 ∷ [] }
    ensures brackets { line_levels 0 (0x61 ∷ 0x28 ∷ 0x5D0 ∷ 0x29 ∷ 0x5D1 ∷ [])
        ≡ Some 0 ∷ Some 0 ∷ Some 1 ∷ Some 0 ∷ Some 1 ∷ [] }
    ensures separator { line_levels 0 (0x5D0 ∷ 0x2066 ∷ 0x2069 ∷ 0x9 ∷ 0x5D1 ∷ [])
        ≡ Some 1 ∷ Some 0 ∷ Some 0 ∷ Some 0 ∷ Some 1 ∷ [] }
    ensures found { line_levels 0 (0x2068 ∷ 0x21 ∷ 0x2069 ∷ 0x5D0 ∷ [])
        ≡ Some 0 ∷ Some 2 ∷ Some 0 ∷ Some 1 ∷ [] }
    ensures terminator { line_levels 1 (0x61 ∷ 0x31 ∷ 0x25 ∷ []) ≡ Some 2 ∷ Some 2 ∷ Some 2 ∷ [] }
{}

/// A value of any cleaned text inside 61 or 62 spans from right to left is within the limit, and inside 63 none is.
pub fn law_limit_rows()
    ensures within { (i : ℕ) (text : List ℕ) → IsTrue (is_value_initiator i)
        → is_within_limit 0 (other_labelled (nested_line 61 i (cleaned_text text))) ≡ true }
    ensures last_within { (i : ℕ) (text : List ℕ) → IsTrue (is_value_initiator i)
        → is_within_limit 0 (other_labelled (nested_line 62 i (cleaned_text text))) ≡ true }
    ensures past { (i : ℕ) (text : List ℕ) → IsTrue (is_value_initiator i)
        → is_within_limit 0 (other_labelled (nested_line 63 i (cleaned_text text))) ≡ false }
{}

/// The lines of pages: a `bdo` from right to left around `a`, a value and `b`, for two values; a paragraph whose
/// direction is found in its text, which is a value and a word of Hebrew, for two values; `a`, a value and `b` in 61
/// and 63 spans, for two values; a text whose last `&` isn't decided, which is a fault, so that what follows is left
/// out; and a value that is an `&` alone, which is text of the value.
pub fn law_line_rows()
    ensures with_override { lines Ltr (override_pieces Ltr (codes "c"))
        ≡ line_of 0 (override_line 0x2066 (codes "c")) ∷ [] }
    ensures with_override_hebrew { lines Ltr (override_pieces Rtl hebrew)
        ≡ other_line_of 0 (override_line 0x2067 hebrew) ∷ [] }
    ensures with_auto { lines Ltr (auto_pieces Ltr (codes "abc"))
        ≡ empty_line ∷ line_of 1 (auto_line 0x2066 (codes "abc")) ∷ empty_line ∷ [] }
    ensures with_auto_hebrew { lines Ltr (auto_pieces Rtl hebrew)
        ≡ empty_line ∷ other_line_of 1 (auto_line 0x2067 hebrew) ∷ empty_line ∷ [] }
    ensures nested { lines Ltr (nested_pieces 61 Ltr (codes "c"))
        ≡ line_of 0 (nested_line 61 0x2066 (codes "c")) ∷ [] }
    ensures nested_hebrew { lines Ltr (nested_pieces 61 Rtl hebrew)
        ≡ other_line_of 0 (nested_line 61 0x2067 hebrew) ∷ [] }
    ensures past { lines Ltr (nested_pieces 63 Ltr (codes "c"))
        ≡ line_of 0 (nested_line 63 0x2066 (codes "c")) ∷ [] }
    ensures past_hebrew { lines Ltr (nested_pieces 63 Rtl hebrew)
        ≡ other_line_of 0 (nested_line 63 0x2067 hebrew) ∷ [] }
    ensures fault { lines Ltr (Static (codes "a&&") ∷ value_piece Ltr (codes "c") ∷ [])
        ≡ line_of 0 (Shared 0x61 ∷ Shared 0x26 ∷ []) ∷ [] }
    ensures cut { lines Ltr cut_pieces ≡ cut_line ∷ [] }
{}

/// Order in these lines for every value that is a cleaned text, by each of its characters that is seen: in the first
/// the value stands left of `a`, and `b` left of the value; in the second the word stands left of the value.
pub fn law_order_rows()
    ensures before_value { (i c : ℕ) (v w : List ℕ) → IsTrue (is_value_initiator i)
        → cleaned_text (v ++ c ∷ w) ≡ v ++ c ∷ w → IsTrue (is_surrounding (bidi_class c))
        → is_left_of (line_levels 0 (other_line (override_line i (v ++ c ∷ w)))) (4 + length v) 2 ≡ true }
    ensures after_value { (i c : ℕ) (v w : List ℕ) → IsTrue (is_value_initiator i)
        → cleaned_text (v ++ c ∷ w) ≡ v ++ c ∷ w → IsTrue (is_surrounding (bidi_class c))
        → is_left_of (line_levels 0 (other_line (override_line i (v ++ c ∷ w)))) (6 + length v + length w)
        (4 + length v) ≡ true }
    ensures before_word { (i c : ℕ) (v w : List ℕ) (n : ℕ) → n < 4 → IsTrue (is_value_initiator i)
        → cleaned_text (v ++ c ∷ w) ≡ v ++ c ∷ w → IsTrue (is_surrounding (bidi_class c))
        → is_left_of (line_levels 1 (other_line (auto_line i (v ++ c ∷ w)))) (4 + length v + length w + n)
        (1 + length v) ≡ true }
{}
