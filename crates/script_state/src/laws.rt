//! What the tables of script and style come to, for every text. Each law is a contract with an
//! empty body, so it holds of the definitions that `step`, `placing` and `value` follow.

ghost use Rattle.std.specs.Prelude.{◌≡◌, ◌≢◌, ◌↔◌, ◌++◌, ◌∷◌, [], if◌then◌else◌};
ghost use Rattle.std.specs.Prelude.{ℕ, List, All, IsTrue, IsSomeAnd, Some, option_and_then, codes};
ghost use Rattle.soy_base.specs.declared.code.Code.TheVariants as refusal;
ghost use Rattle.soy_base.specs.declared.place.Place.TheVariants as place;
ghost use Rattle.soy_base.specs.declared.place.Placing.TheVariants as placing;
ghost use Rattle.soy_base.specs.Characters.{single_quote, double_quote};
ghost use Rattle.script_state.specs.CssAfterValue.{css_after_value};
ghost use Rattle.script_state.specs.CssNext.{css_next, is_before_value};
ghost use Rattle.script_state.specs.CssPlacing.{css_placing};
ghost use Rattle.soy_base.specs.Among.{HasNone};
ghost use Rattle.script_state.specs.IsLineText.{IsLineTerminator, IsLineText};
ghost use Rattle.script_state.specs.IsLiteralText.{IsLiteralText};
ghost use Rattle.script_state.specs.IsPlainScript.{IsPlainScript};
ghost use Rattle.script_state.specs.IsPlainStyle.{IsPlainStyle};
ghost use Rattle.script_state.specs.IsStyleCode.{IsStyleCode};
ghost use Rattle.script_state.specs.JsNext.{js_next};
ghost use Rattle.script_state.specs.JsPlacing.{js_placing};
ghost use Rattle.soy_base.specs.StateAfter.{state_after};
ghost use Rattle.script_state.specs.declared.css_state.CssState.{CssState};
ghost use Rattle.script_state.specs.declared.js_state.JsState.{JsState};

use crate::css_state::CssState;
use crate::js_state::JsState;

/// Text of a script without quotes, slashes and backticks stays in Code.
pub fn law_plain_script()
    ensures { (text : List ℕ) → All IsPlainScript text →
        state_after js_next JsState.Code text ≡ Some JsState.Code }
{}

/// Within a comment of a script no value is taken, and after the whole comment the state is that
/// before it, whatever the comment says.
pub fn law_script_comment()
    ensures within_block { (text : List ℕ) → HasNone (codes "*/") text →
        IsSomeAnd (state_after js_next JsState.Code (codes "/*" ++ text))
        (λ state. js_placing state ≡ placing.Refuses refusal.Place) }
    ensures within_line { (text : List ℕ) → IsLineText text →
        IsSomeAnd (state_after js_next JsState.Code (codes "//" ++ text))
        (λ state. js_placing state ≡ placing.Refuses refusal.Place) }
    ensures after_block { (text : List ℕ) → HasNone (codes "*/") text →
        state_after js_next JsState.Code (codes "/*" ++ text ++ codes "*/") ≡ Some JsState.Code }
    ensures after_line { (text : List ℕ) (end : ℕ) → IsLineText text → IsLineTerminator end →
        state_after js_next JsState.Code (codes "//" ++ text ++ end ∷ []) ≡ Some JsState.Code }
{}

/// Within a string literal of a script the state is that of the literal, and after the whole
/// literal it is that before it, whatever the literal says.
pub fn law_script_literal()
    ensures within_single { (text : List ℕ) → IsLiteralText single_quote text →
        state_after js_next JsState.Code (single_quote ∷ text) ≡ Some JsState.Single }
    ensures within_double { (text : List ℕ) → IsLiteralText double_quote text →
        state_after js_next JsState.Code (double_quote ∷ text) ≡ Some JsState.Double }
    ensures after_single { (text : List ℕ) → IsLiteralText single_quote text →
        state_after js_next JsState.Code (single_quote ∷ text ++ single_quote ∷ [])
        ≡ Some JsState.Code }
    ensures after_double { (text : List ℕ) → IsLiteralText double_quote text →
        state_after js_next JsState.Code (double_quote ∷ text ++ double_quote ∷ [])
        ≡ Some JsState.Code }
{}

/// A script may be read in pieces: the state after two pieces is that after their whole.
pub fn law_script_in_pieces()
    ensures { (state : JsState) (first second : List ℕ) →
        state_after js_next state (first ++ second)
        ≡ option_and_then (λ middle. state_after js_next middle second)
        (state_after js_next state first) }
{}

/// After text of a style without quotes, slashes and backslashes the last character alone decides
/// whether a value may begin.
pub fn law_plain_style()
    ensures { (text : List ℕ) (last : ℕ) → All IsPlainStyle text → IsPlainStyle last →
        state_after css_next CssState.Code (text ++ last ∷ [])
        ≡ Some (if is_before_value last then CssState.Ready else CssState.Code) }
{}

/// Within a comment of a style no value is taken, and after the whole comment the state is Code,
/// whatever the comment says.
pub fn law_style_comment()
    ensures within { (state : CssState) (text : List ℕ) →
        IsStyleCode state → HasNone (codes "*/") text →
        IsSomeAnd (state_after css_next state (codes "/*" ++ text))
        (λ state. css_placing state ≡ placing.Refuses refusal.Place) }
    ensures after { (state : CssState) (text : List ℕ) →
        IsStyleCode state → HasNone (codes "*/") text →
        state_after css_next state (codes "/*" ++ text ++ codes "*/") ≡ Some CssState.Code }
{}

/// Within a string of a style the state is that of the string, and after the whole string it is
/// Code, whatever the string says.
pub fn law_style_string()
    ensures within_single { (state : CssState) (text : List ℕ) →
        IsStyleCode state → IsLiteralText single_quote text →
        state_after css_next state (single_quote ∷ text) ≡ Some CssState.Single }
    ensures within_double { (state : CssState) (text : List ℕ) →
        IsStyleCode state → IsLiteralText double_quote text →
        state_after css_next state (double_quote ∷ text) ≡ Some CssState.Double }
    ensures after_single { (state : CssState) (text : List ℕ) →
        IsStyleCode state → IsLiteralText single_quote text →
        state_after css_next state (single_quote ∷ text ++ single_quote ∷ []) ≡ Some CssState.Code }
    ensures after_double { (state : CssState) (text : List ℕ) →
        IsStyleCode state → IsLiteralText double_quote text →
        state_after css_next state (double_quote ∷ text ++ double_quote ∷ []) ≡ Some CssState.Code }
{}

/// A style may be read in pieces: the state after two pieces is that after their whole.
pub fn law_style_in_pieces()
    ensures { (state : CssState) (first second : List ℕ) →
        state_after css_next state (first ++ second)
        ≡ option_and_then (λ middle. state_after css_next middle second)
        (state_after css_next state first) }
{}

/// A value that is printed in a style changes the state only where it is taken as a style's value,
/// and then what follows must end it.
pub fn law_style_value()
    ensures ends { css_after_value CssState.Ready ≡ CssState.AfterValue }
    ensures leaves { (state : CssState) → css_placing state ≢ placing.Takes place.CssValue →
        css_after_value state ≡ state }
{}

/// Two states of a script are equal for the program exactly where they are the same state.
pub fn law_script_equality(left: JsState, right: JsState) -> bool
    ensures { IsTrue result ↔ (left ≡ right) }
{
    left == right
}

/// Two states of a style are equal for the program exactly where they are the same state.
pub fn law_style_equality(left: CssState, right: CssState) -> bool
    ensures { IsTrue result ↔ (left ≡ right) }
{
    left == right
}
