//! What escaped texts are in the terms of what reads them, for every text.
//!
//! Each law is a contract with an empty body, so it holds of the definitions that `escape` follows.
ghost use Rattle.std.specs.Prelude.{◌≡◌, ℕ, List, Some, IsTrue};
ghost use Rattle.std.specs.Str.{all_scalars};
ghost use Rattle.soy_base.specs.StateAfter.{state_after};
ghost use Rattle.script_state.specs.CssNext.{css_next};
ghost use Rattle.script_state.specs.JsNext.{js_next};
ghost use Rattle.script_state.specs.declared.css_state.CssState.TheVariants as css;
ghost use Rattle.script_state.specs.declared.js_state.JsState.TheVariants as js;
ghost use Rattle.esc_table.specs.EscapedText.{escaped_text};
ghost use Rattle.esc_table.specs.HtmlRows.{html_rows};
ghost use Rattle.escapers.specs.CssRows.{css_rows};
ghost use Rattle.escapers.specs.CssValue.{css_value, is_css_value};
ghost use Rattle.escapers.specs.DecodedText.{decoded_text};
ghost use Rattle.escapers.specs.IsComponentText.{IsComponentText};
ghost use Rattle.escapers.specs.IsCssStringText.{IsCssStringText};
ghost use Rattle.escapers.specs.IsHtmlText.{IsHtmlText};
ghost use Rattle.escapers.specs.IsJsStringText.{IsJsStringText};
ghost use Rattle.escapers.specs.IsUriStartText.{IsUriStartText};
ghost use Rattle.escapers.specs.IsJsWord.{IsJsWord};
ghost use Rattle.escapers.specs.JsRows.{js_rows};
ghost use Rattle.escapers.specs.JsValue.{js_literal, js_word};
ghost use Rattle.escapers.specs.UriComponent.{uri_component};
ghost use Rattle.escapers.specs.UriStart.{uri_start};

/// A text escaped by the rows of HTML has no markup, and each `&` in it begins a reference.
pub fn law_html_text()
    ensures { (text : List ℕ) → IsHtmlText (escaped_text html_rows text) }
{}

/// A text escaped for a string literal of a script ends neither the literal nor the script, and leaves no escape open.
pub fn law_js_string_text()
    ensures { (text : List ℕ) → IsJsStringText (escaped_text js_rows text) }
{}

/// A text as a whole value of a script: after it the script is where it was before it, outside literals and comments.
pub fn law_js_values()
    ensures literals { (text : List ℕ) → state_after js_next js.Code (js_literal text) ≡ Some js.Code }
    ensures words { (text : List ℕ) → IsJsWord text → state_after js_next js.Code (js_word text) ≡ Some js.Code }
{}

/// A text escaped for a string of a style ends neither the string nor the style, and leaves no escape open.
pub fn law_css_string_text()
    ensures { (text : List ℕ) → IsCssStringText (escaped_text css_rows text) }
{}

/// What stands for a value of a style is a value, and after it, where a value may begin, the style is outside strings,
/// comments and escapes.
pub fn law_css_values()
    ensures values { (text : List ℕ) → IsTrue (is_css_value (css_value text)) }
    ensures code { (text : List ℕ) → state_after css_next css.Ready (css_value text) ≡ Some css.Code }
{}

/// A text escaped as a part of a URI has unreserved characters and encoded bytes alone, and is
/// read back as the text that it was.
pub fn law_uri_component_text()
    ensures written { (text : List ℕ) → IsTrue (all_scalars text) → IsComponentText (uri_component text) }
    ensures read_back { (text : List ℕ) → IsTrue (all_scalars text) → decoded_text (uri_component text) ≡ text }
{}

/// A text escaped as the start of a URI has an allowed scheme or none, also as the page has it.
pub fn law_uri_start_text()
    ensures { (text : List ℕ) → IsUriStartText (uri_start text) }
{}
