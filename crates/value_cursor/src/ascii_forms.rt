//! The escaped forms of the characters of ASCII.
ghost use Rattle.std.specs.Prelude.{◌≡◌, ◌<◌, IfSome, encode_utf8_all, map, true};
ghost use Rattle.std.specs.List.{list_all};
ghost use Rattle.escapers.specs.Esc.{escaped_character};
ghost use Rattle.value_cursor.specs.AsciiForms.{ascii_forms};
ghost use Rattle.value_cursor.specs.ByteForms.{is_short};

use escapers::Escaper;

/// The forms by `Html`, eight in a line.
static HTML: [&str; 128] = [
    "\u{fffd}", "\u{1}", "\u{2}", "\u{3}", "\u{4}", "\u{5}", "\u{6}", "\u{7}", //
    "\u{8}", "\t", "\n", "\u{b}", "\u{c}", "&#13;", "\u{e}", "\u{f}", //
    "\u{10}", "\u{11}", "\u{12}", "\u{13}", "\u{14}", "\u{15}", "\u{16}", "\u{17}", //
    "\u{18}", "\u{19}", "\u{1a}", "\u{1b}", "\u{1c}", "\u{1d}", "\u{1e}", "\u{1f}", //
    " ", "!", "&quot;", "#", "$", "%", "&amp;", "&#39;", //
    "(", ")", "*", "+", ",", "-", ".", "/", //
    "0", "1", "2", "3", "4", "5", "6", "7", //
    "8", "9", ":", ";", "&lt;", "=", "&gt;", "?", //
    "@", "A", "B", "C", "D", "E", "F", "G", //
    "H", "I", "J", "K", "L", "M", "N", "O", //
    "P", "Q", "R", "S", "T", "U", "V", "W", //
    "X", "Y", "Z", "[", "\\", "]", "^", "_", //
    "`", "a", "b", "c", "d", "e", "f", "g", //
    "h", "i", "j", "k", "l", "m", "n", "o", //
    "p", "q", "r", "s", "t", "u", "v", "w", //
    "x", "y", "z", "{", "|", "}", "~", "\u{7f}", //
];

/// The forms by `UriNormal`, eight in a line.
static URI_NORMAL: [&str; 128] = [
    "%00", "%01", "%02", "%03", "%04", "%05", "%06", "%07", //
    "%08", "%09", "%0A", "%0B", "%0C", "%0D", "%0E", "%0F", //
    "%10", "%11", "%12", "%13", "%14", "%15", "%16", "%17", //
    "%18", "%19", "%1A", "%1B", "%1C", "%1D", "%1E", "%1F", //
    "%20", "!", "%22", "#", "$", "%", "&amp;", "%27", //
    "%28", "%29", "*", "+", ",", "-", ".", "/", //
    "0", "1", "2", "3", "4", "5", "6", "7", //
    "8", "9", ":", ";", "%3C", "=", "%3E", "?", //
    "@", "A", "B", "C", "D", "E", "F", "G", //
    "H", "I", "J", "K", "L", "M", "N", "O", //
    "P", "Q", "R", "S", "T", "U", "V", "W", //
    "X", "Y", "Z", "[", "%5C", "]", "%5E", "_", //
    "%60", "a", "b", "c", "d", "e", "f", "g", //
    "h", "i", "j", "k", "l", "m", "n", "o", //
    "p", "q", "r", "s", "t", "u", "v", "w", //
    "x", "y", "z", "%7B", "%7C", "%7D", "~", "%7F", //
];

/// The forms by `UriComponent`, eight in a line.
static URI_COMPONENT: [&str; 128] = [
    "%00", "%01", "%02", "%03", "%04", "%05", "%06", "%07", //
    "%08", "%09", "%0A", "%0B", "%0C", "%0D", "%0E", "%0F", //
    "%10", "%11", "%12", "%13", "%14", "%15", "%16", "%17", //
    "%18", "%19", "%1A", "%1B", "%1C", "%1D", "%1E", "%1F", //
    "%20", "%21", "%22", "%23", "%24", "%25", "%26", "%27", //
    "%28", "%29", "%2A", "%2B", "%2C", "-", ".", "%2F", //
    "0", "1", "2", "3", "4", "5", "6", "7", //
    "8", "9", "%3A", "%3B", "%3C", "%3D", "%3E", "%3F", //
    "%40", "A", "B", "C", "D", "E", "F", "G", //
    "H", "I", "J", "K", "L", "M", "N", "O", //
    "P", "Q", "R", "S", "T", "U", "V", "W", //
    "X", "Y", "Z", "%5B", "%5C", "%5D", "%5E", "_", //
    "%60", "a", "b", "c", "d", "e", "f", "g", //
    "h", "i", "j", "k", "l", "m", "n", "o", //
    "p", "q", "r", "s", "t", "u", "v", "w", //
    "x", "y", "z", "%7B", "%7C", "%7D", "~", "%7F", //
];

/// The forms by `JsString`, eight in a line.
static JS_STRING: [&str; 128] = [
    "\\x00", "\u{1}", "\u{2}", "\u{3}", "\u{4}", "\u{5}", "\u{6}", "\u{7}", //
    "\\x08", "\\t", "\\n", "\\x0b", "\\f", "\\r", "\u{e}", "\u{f}", //
    "\u{10}", "\u{11}", "\u{12}", "\u{13}", "\u{14}", "\u{15}", "\u{16}", "\u{17}", //
    "\u{18}", "\u{19}", "\u{1a}", "\u{1b}", "\u{1c}", "\u{1d}", "\u{1e}", "\u{1f}", //
    " ", "!", "\\x22", "#", "$", "%", "\\x26", "\\x27", //
    "(", ")", "*", "+", ",", "-", ".", "\\/", //
    "0", "1", "2", "3", "4", "5", "6", "7", //
    "8", "9", ":", ";", "\\x3c", "\\x3d", "\\x3e", "?", //
    "@", "A", "B", "C", "D", "E", "F", "G", //
    "H", "I", "J", "K", "L", "M", "N", "O", //
    "P", "Q", "R", "S", "T", "U", "V", "W", //
    "X", "Y", "Z", "[", "\\\\", "]", "^", "_", //
    "\\x60", "a", "b", "c", "d", "e", "f", "g", //
    "h", "i", "j", "k", "l", "m", "n", "o", //
    "p", "q", "r", "s", "t", "u", "v", "w", //
    "x", "y", "z", "{", "|", "}", "~", "\u{7f}", //
];

/// The forms by `CssString`, eight in a line.
static CSS_STRING: [&str; 128] = [
    "\\fffd ", "\\1 ", "\\2 ", "\\3 ", "\\4 ", "\\5 ", "\\6 ", "\\7 ", //
    "\\8 ", "\\9 ", "\\a ", "\\b ", "\\c ", "\\d ", "\\e ", "\\f ", //
    "\\10 ", "\\11 ", "\\12 ", "\\13 ", "\\14 ", "\\15 ", "\\16 ", "\\17 ", //
    "\\18 ", "\\19 ", "\\1a ", "\\1b ", "\\1c ", "\\1d ", "\\1e ", "\\1f ", //
    " ", "!", "\\22 ", "#", "$", "%", "\\26 ", "\\27 ", //
    "\\28 ", "\\29 ", "\\2a ", "+", ",", "-", ".", "\\2f ", //
    "0", "1", "2", "3", "4", "5", "6", "7", //
    "8", "9", "\\3a ", "\\3b ", "\\3c ", "\\3d ", "\\3e ", "?", //
    "\\40 ", "A", "B", "C", "D", "E", "F", "G", //
    "H", "I", "J", "K", "L", "M", "N", "O", //
    "P", "Q", "R", "S", "T", "U", "V", "W", //
    "X", "Y", "Z", "[", "\\5c ", "]", "^", "_", //
    "`", "a", "b", "c", "d", "e", "f", "g", //
    "h", "i", "j", "k", "l", "m", "n", "o", //
    "p", "q", "r", "s", "t", "u", "v", "w", //
    "x", "y", "z", "\\7b ", "|", "\\7d ", "~", "\\7f ", //
];

/// The forms of ASCII by an escaper, where there is a table of them. None has more than six bytes.
pub(crate) fn forms_by(how: Escaper) -> Option<&'static [&'static str; 128]>
    ensures forms { IfSome result (λ forms. map (λ form. form.now) forms.now ≡ ascii_forms how) }
    ensures short { IfSome result (λ _. list_all is_short (ascii_forms how) ≡ true) }
{
    match how {
        Escaper::Html => Some(&HTML),
        Escaper::UriNormal => Some(&URI_NORMAL),
        Escaper::UriComponent => Some(&URI_COMPONENT),
        Escaper::JsString => Some(&JS_STRING),
        Escaper::CssString => Some(&CSS_STRING),
        Escaper::Wrap
        | Escaper::UriStart
        | Escaper::JsValue
        | Escaper::CssValue
        | Escaper::Plain
        | Escaper::AsIs => None,
    }
}

/// The form of a character of ASCII by an escaper, where there is a table of them.
pub(crate) fn ascii_form(how: Escaper, c: u8) -> Option<&'static str>
    requires { c < 0x80 }
    ensures { IfSome result (λ form. form.now ≡ encode_utf8_all (escaped_character how c)) }
{
    match forms_by(how) {
        Some(forms) => Some(text_of(how, forms, c)),
        None => None,
    }
}

/// The text of a character of ASCII in an escaper's table.
pub(crate) fn text_of(_how: Escaper, texts: &[&'static str; 128], c: u8) -> &'static str
    requires low { c < 0x80 }
    requires texts { map (λ text. text.now) texts.now ≡ ascii_forms _how }
    ensures { result.now ≡ encode_utf8_all (escaped_character _how c) }
{
    texts[c as usize]
}
