//! What the definitions come to. Each law is a contract with an empty body.
ghost use Rattle.std.specs.Prelude.{◌≡◌, ℕ, List, ◌++◌, Option};
ghost use Rattle.soy_io.specs.Added.{added};

/// What a sink takes in two parts, it has taken as if it were one.
pub fn law_taken_in_parts()
    ensures { (before : Option (List ℕ)) (first second : List ℕ) →
        added (added before first) second ≡ added before (first ++ second) }
{}
