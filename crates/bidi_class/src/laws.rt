//! What holds of the pairs of isolate controls, for every text.
ghost use Rattle.std.specs.Prelude.{◌≡◌, ℕ, List, IsTrue};
ghost use Rattle.bidi_class.specs.Pairs.{is_pair};

/// An initiator is paired with one PDI at most.
pub fn law_pairs()
    ensures { (text : List ℕ) (first second other : ℕ)
        → IsTrue (is_pair text first second) → IsTrue (is_pair text first other) → second ≡ other }
{}
