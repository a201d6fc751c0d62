//! What holds of patterns: a function that takes nothing and does nothing, whose contract is the law.

ghost use Rattle.std.specs.Prelude.{◌≡◌, ℕ, List};
ghost use Rattle.soy_tree.specs.MessageParts.{MsgParts};
ghost use Rattle.soy_rules.specs.IcuText.{IsPattern};

/// A text is one pattern at most.
pub fn law_one_pattern()
    ensures { (text : List ℕ) (ps qs : MsgParts) → IsPattern text ps → IsPattern text qs → ps ≡ qs }
{}
