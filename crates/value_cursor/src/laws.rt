//! What holds of the definitions, for every text and all rooms.
ghost use Rattle.std.specs.Prelude.{◌≡◌, ◌≤◌, ℕ, List, ◌++◌, length, take, sum};
ghost use Rattle.value_cursor.specs.Joined.{joined_rooms};

/// What is given into any rooms, joined, is a prefix of what was left, as long as the rooms are together, and all of it
/// where they suffice.
pub fn law_rooms_joined()
    ensures prefix { (sizes left : List ℕ) → joined_rooms sizes left ≡ take (sum sizes) left }
    ensures whole { (sizes left : List ℕ) → length left ≤ sum sizes → joined_rooms sizes left ≡ left }
{}
