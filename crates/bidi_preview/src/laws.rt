//! The order in which a line is seen, in the words of `Before`.
ghost use Rattle.std.specs.Prelude.{◌≡◌, ◌++◌, ◌∷◌, ℕ, IsTrue, List, Option};
ghost use Rattle.bidi_order.specs.VisualOrder.{LeveledCharacter, is_left_of, visual_order};

/// Of the characters of a line in visual order, each stands left of each that follows it.
pub fn law_seen_order()
    ensures { (levels : List (Option ℕ)) (front mid back : List LeveledCharacter) (x y : LeveledCharacter)
        → visual_order levels ≡ front ++ x ∷ (mid ++ y ∷ back) → IsTrue (is_left_of levels x.index y.index) }
{}
