//! Each row of both tables, and scripts and styles as authors write them.

use script_state::{Bad, CssState, JsState};
use soy_base::{Code, Place, Placing};

/// Stands for a printed value in the scripts and styles below.
const PRINT: char = '§';

const VALUE: Placing = Placing::Takes(Place::JsValue);

const SINGLE: Placing = Placing::Takes(Place::JsSingle);

const DOUBLE: Placing = Placing::Takes(Place::JsDouble);

const CSS: Placing = Placing::Takes(Place::CssValue);

const STRING: Placing = Placing::Takes(Place::CssString);

const REFUSED: Placing = Placing::Refuses(Code::Place);

/// A state, a character, and the next state or None where the character is a fault.
const SCRIPT_ROWS: &[(JsState, char, Option<JsState>)] = &[
    (JsState::Code, '/', Some(JsState::Slash)),
    (JsState::Code, '\'', Some(JsState::Single)),
    (JsState::Code, '"', Some(JsState::Double)),
    (JsState::Code, '`', None),
    (JsState::Code, '*', Some(JsState::Code)),
    (JsState::Code, '\\', Some(JsState::Code)),
    (JsState::Code, '\n', Some(JsState::Code)),
    (JsState::Slash, '/', Some(JsState::Line)),
    (JsState::Slash, '*', Some(JsState::Block)),
    (JsState::Slash, ' ', None),
    (JsState::Slash, '`', None),
    (JsState::Line, '\n', Some(JsState::Code)),
    (JsState::Line, '\r', Some(JsState::Code)),
    (JsState::Line, '\u{2028}', Some(JsState::Code)),
    (JsState::Line, '\u{2029}', Some(JsState::Code)),
    (JsState::Line, '\u{c}', Some(JsState::Line)),
    (JsState::Line, '`', Some(JsState::Line)),
    (JsState::Block, '*', Some(JsState::BlockStar)),
    (JsState::Block, '/', Some(JsState::Block)),
    (JsState::BlockStar, '/', Some(JsState::Code)),
    (JsState::BlockStar, '*', Some(JsState::BlockStar)),
    (JsState::BlockStar, '"', Some(JsState::Block)),
    (JsState::Single, '\\', Some(JsState::SingleEscape)),
    (JsState::Single, '\'', Some(JsState::Code)),
    (JsState::Single, '\n', None),
    (JsState::Single, '\r', None),
    (JsState::Single, '"', Some(JsState::Single)),
    (JsState::Single, '\u{2028}', Some(JsState::Single)),
    (JsState::Double, '\\', Some(JsState::DoubleEscape)),
    (JsState::Double, '"', Some(JsState::Code)),
    (JsState::Double, '\n', None),
    (JsState::Double, '\r', None),
    (JsState::Double, '\'', Some(JsState::Double)),
    (JsState::Double, '`', Some(JsState::Double)),
    (JsState::SingleEscape, '\'', Some(JsState::Single)),
    (JsState::SingleEscape, '\n', Some(JsState::Single)),
    (JsState::DoubleEscape, '"', Some(JsState::Double)),
    (JsState::DoubleEscape, '\\', Some(JsState::Double)),
];

/// The same for a style.
const STYLE_ROWS: &[(CssState, char, Option<CssState>)] = &[
    (CssState::Code, '\t', Some(CssState::Ready)),
    (CssState::Code, '\n', Some(CssState::Ready)),
    (CssState::Code, '\u{c}', Some(CssState::Ready)),
    (CssState::Code, '\r', Some(CssState::Ready)),
    (CssState::Code, ' ', Some(CssState::Ready)),
    (CssState::Code, ':', Some(CssState::Ready)),
    (CssState::Code, ',', Some(CssState::Ready)),
    (CssState::Code, '(', Some(CssState::Ready)),
    (CssState::Code, '/', Some(CssState::Slash)),
    (CssState::Code, '\\', Some(CssState::CodeEscape)),
    (CssState::Code, '\'', Some(CssState::Single)),
    (CssState::Code, '"', Some(CssState::Double)),
    (CssState::Code, '`', Some(CssState::Code)),
    (CssState::Code, '\u{a0}', Some(CssState::Code)),
    (CssState::Ready, ' ', Some(CssState::Ready)),
    (CssState::Ready, '(', Some(CssState::Ready)),
    (CssState::Ready, '/', Some(CssState::Slash)),
    (CssState::Ready, '\\', Some(CssState::CodeEscape)),
    (CssState::Ready, '\'', Some(CssState::Single)),
    (CssState::Ready, '"', Some(CssState::Double)),
    (CssState::Ready, ';', Some(CssState::Code)),
    (CssState::Slash, '*', Some(CssState::Comment)),
    (CssState::Slash, '/', Some(CssState::Slash)),
    (CssState::Slash, '\'', Some(CssState::Single)),
    (CssState::Slash, ' ', Some(CssState::Ready)),
    (CssState::Slash, '2', Some(CssState::Code)),
    (CssState::Comment, '*', Some(CssState::CommentStar)),
    (CssState::Comment, '/', Some(CssState::Comment)),
    (CssState::CommentStar, '/', Some(CssState::Code)),
    (CssState::CommentStar, '*', Some(CssState::CommentStar)),
    (CssState::CommentStar, ' ', Some(CssState::Comment)),
    (CssState::CodeEscape, ':', Some(CssState::Code)),
    (CssState::CodeEscape, '\\', Some(CssState::Code)),
    (CssState::Single, '\\', Some(CssState::SingleEscape)),
    (CssState::Single, '\'', Some(CssState::Code)),
    (CssState::Single, '\n', None),
    (CssState::Single, '\r', None),
    (CssState::Single, '"', Some(CssState::Single)),
    (CssState::Double, '\\', Some(CssState::DoubleEscape)),
    (CssState::Double, '"', Some(CssState::Code)),
    (CssState::Double, '\n', None),
    (CssState::Double, '\r', None),
    (CssState::Double, ':', Some(CssState::Double)),
    (CssState::SingleEscape, '\'', Some(CssState::Single)),
    (CssState::SingleEscape, 'a', Some(CssState::Single)),
    (CssState::DoubleEscape, '"', Some(CssState::Double)),
    (CssState::DoubleEscape, '\r', Some(CssState::Double)),
    (CssState::AfterValue, ' ', Some(CssState::Ready)),
    (CssState::AfterValue, ',', Some(CssState::Ready)),
    (CssState::AfterValue, ';', Some(CssState::Code)),
    (CssState::AfterValue, ')', Some(CssState::Code)),
    (CssState::AfterValue, '!', Some(CssState::Code)),
    (CssState::AfterValue, '}', Some(CssState::Code)),
    (CssState::AfterValue, ':', None),
    (CssState::AfterValue, '(', None),
];

/// What a test asks of the states of a script and of a style alike.
trait Machine: Copy + PartialEq {
    fn start() -> Self;

    fn step(&mut self, c: char) -> Result<(), Bad>;

    fn value(&mut self);

    fn placing(&self) -> Placing;
}

impl Machine for JsState {
    fn start() -> JsState {
        JsState::start()
    }

    fn step(&mut self, c: char) -> Result<(), Bad> {
        JsState::step(self, c)
    }

    fn value(&mut self) {
        JsState::value(self)
    }

    fn placing(&self) -> Placing {
        JsState::placing(self)
    }
}

impl Machine for CssState {
    fn start() -> CssState {
        CssState::start()
    }

    fn step(&mut self, c: char) -> Result<(), Bad> {
        CssState::step(self, c)
    }

    fn value(&mut self) {
        CssState::value(self)
    }

    fn placing(&self) -> Placing {
        CssState::placing(self)
    }
}

fn row_holds<M: Machine>(before: M, c: char, after: Option<M>) -> bool {
    let mut state = before;
    let step = state.step(c);
    step.is_ok() == after.is_some() && state == after.unwrap_or(before)
}

#[test]
fn each_row_of_script_leads_on_or_refuses(rt: HostRuntime) {
    for (before, c, after) in SCRIPT_ROWS {
        assert!(rt; row_holds(*before, *c, *after), "{before:?} at {c:?}");
    }
}

#[test]
fn each_row_of_style_leads_on_or_refuses(rt: HostRuntime) {
    for (before, c, after) in STYLE_ROWS {
        assert!(rt; row_holds(*before, *c, *after), "{before:?} at {c:?}");
    }
}

/// A script, what happens to each value that it prints, and where it ends.
const SCRIPTS: &[(&str, &[Placing], Result<JsState, Bad>)] = &[
    ("", &[], Ok(JsState::Code)),
    ("var user = §;", &[VALUE], Ok(JsState::Code)),
    ("var name = '§';", &[SINGLE], Ok(JsState::Code)),
    (
        "var title = \"§ - §\";",
        &[DOUBLE, DOUBLE],
        Ok(JsState::Code),
    ),
    (
        "setUp(§, '§', \"§\");",
        &[VALUE, SINGLE, DOUBLE],
        Ok(JsState::Code),
    ),
    (
        "var o = {\"name\": \"§\", 'id': §};",
        &[DOUBLE, VALUE],
        Ok(JsState::Code),
    ),
    (
        "if (a < b && c > §) { go('§'); }",
        &[VALUE, SINGLE],
        Ok(JsState::Code),
    ),
    ("var s = '\"§\"';", &[SINGLE], Ok(JsState::Code)),
    (
        "// the user's §\nrun(§);",
        &[REFUSED, VALUE],
        Ok(JsState::Code),
    ),
    ("// note\u{2028}run(§)", &[VALUE], Ok(JsState::Code)),
    ("run(); // it's §", &[REFUSED], Ok(JsState::Line)),
    ("/* § */ run(§);", &[REFUSED, VALUE], Ok(JsState::Code)),
    (
        "/** @type {number} §*/var n = §;",
        &[REFUSED, VALUE],
        Ok(JsState::Code),
    ),
    (
        "/* a * / § **/ run(§)",
        &[REFUSED, VALUE],
        Ok(JsState::Code),
    ),
    ("/*/ § */ run(§)", &[REFUSED, VALUE], Ok(JsState::Code)),
    ("/* never closed *", &[], Ok(JsState::BlockStar)),
    ("var s = 'it\\'s §';", &[SINGLE], Ok(JsState::Code)),
    ("var s = \"\\\\\"; run(§);", &[VALUE], Ok(JsState::Code)),
    ("var s = 'one\\\ntwo §';", &[SINGLE], Ok(JsState::Code)),
    ("var s = '\\§';", &[REFUSED], Ok(JsState::Single)),
    ("var s = 'a\u{2028}§';", &[SINGLE], Ok(JsState::Code)),
    ("var s = 'a\nb §';", &[], Err(Bad)),
    ("var r = §, re = /a+/;", &[VALUE], Err(Bad)),
    ("var half = § / 2;", &[VALUE], Err(Bad)),
    ("var t = `§`;", &[], Err(Bad)),
];

/// The same for a style.
const STYLES: &[(&str, &[Placing], Result<CssState, Bad>)] = &[
    ("§", &[REFUSED], Ok(CssState::Code)),
    ("color:§", &[CSS], Ok(CssState::AfterValue)),
    ("color: §;", &[CSS], Ok(CssState::Code)),
    ("color:#§", &[REFUSED], Ok(CssState::Code)),
    (
        "color:§;background:§",
        &[CSS, CSS],
        Ok(CssState::AfterValue),
    ),
    ("color:§§", &[CSS, REFUSED], Ok(CssState::AfterValue)),
    ("margin: § §, §", &[CSS, CSS, CSS], Ok(CssState::AfterValue)),
    ("margin:\u{c}§", &[CSS], Ok(CssState::AfterValue)),
    ("margin:\u{a0}§", &[REFUSED], Ok(CssState::Code)),
    ("width: calc(§ + 1px)", &[CSS], Ok(CssState::Code)),
    ("background: url(§)", &[CSS], Ok(CssState::Code)),
    ("a { color: § !important; }", &[CSS], Ok(CssState::Code)),
    ("a{color:§}", &[CSS], Ok(CssState::Code)),
    ("font: 12px/1.5 §", &[CSS], Ok(CssState::AfterValue)),
    ("width: 1/§", &[REFUSED], Ok(CssState::Slash)),
    (
        "font-family: '§ Sans', serif",
        &[STRING],
        Ok(CssState::Code),
    ),
    (
        "content: \"§\\\"§\";",
        &[STRING, STRING],
        Ok(CssState::Code),
    ),
    ("content: 'it\\\nis §'", &[STRING], Ok(CssState::Code)),
    ("content: '\"§", &[STRING], Ok(CssState::Single)),
    (
        "/* § */ color: §",
        &[REFUSED, CSS],
        Ok(CssState::AfterValue),
    ),
    ("color: /* blue */§", &[REFUSED], Ok(CssState::Code)),
    (
        "//* § */ color: §",
        &[REFUSED, CSS],
        Ok(CssState::AfterValue),
    ),
    ("/***/ a\\:§", &[REFUSED], Ok(CssState::Code)),
    ("a\\§", &[REFUSED], Ok(CssState::CodeEscape)),
    ("width: §px", &[CSS], Err(Bad)),
    ("color: §/* red */", &[CSS], Err(Bad)),
    ("content: '\n§'", &[], Err(Bad)),
];

/// Whether a text meets these placings at its printed values, and ends so.
fn leads<M: Machine>(text: &str, placings: &[Placing], end: Result<M, Bad>) -> bool {
    let mut state = M::start();
    let mut left = placings.iter();
    for c in text.chars() {
        if c == PRINT {
            if left.next() != Some(&state.placing()) {
                return false;
            }
            state.value();
        } else if state.step(c).is_err() {
            return left.next().is_none() && end == Err(Bad);
        }
    }
    left.next().is_none() && end == Ok(state)
}

#[test]
fn values_of_scripts_meet_their_places(rt: HostRuntime) {
    for (script, placings, end) in SCRIPTS {
        assert!(rt; leads(script, placings, *end), "{script}");
    }
}

#[test]
fn values_of_styles_meet_their_places(rt: HostRuntime) {
    for (style, placings, end) in STYLES {
        assert!(rt; leads(style, placings, *end), "{style}");
    }
}
