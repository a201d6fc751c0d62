//! What holds of canonical source: functions that take nothing and do nothing, whose contracts are the laws.

ghost use Rattle.std.specs.Prelude.{◌≡◌};
ghost use Rattle.soy_tree.specs.Trees.{Tree};
ghost use Rattle.soy_format.specs.Formatted.{formatted_tree};
ghost use Rattle.soy_format.specs.WithoutSpans.{AreAlike};

/// Trees that are alike are written alike. So a file whose tree is alike to that of what is written for it, as the
/// grammar has it, is written the same again.
pub fn law_alike_trees()
    ensures { (a b : Tree) → AreAlike a b → formatted_tree a ≡ formatted_tree b }
{}
