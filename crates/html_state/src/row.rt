//! What a state is: the row of the tokenizer's table with what the row keeps, and a reference that isn't decided.

ghost use Rattle.std.specs.Prelude.{◌==◌};
ghost use Rattle.std.specs.Ordering.{on};
ghost use Rattle.std.specs.Cmp.Rules.{comparing};
ghost use Rattle.std.proofs.Common.{rules};
ghost use Rattle.html_state.specs.QuoteCharacter.{quote_character};

use crate::attribute::quote_character;
use crate::name::Name;
use crate::prefix::Prefix;
use script_state::{CssState, JsState};

/// Which tag a name stands in.
#[derive(Clone, Copy, Debug, PartialEq, Eq)]
pub enum TagKind {
    Start,
    End,
}

/// The tag that an attribute stands in. A text of kind attributes has one without a name.
#[derive(Clone, Copy, Debug, PartialEq, Eq)]
pub enum Tag {
    Named(TagKind, Name),
    Block,
}

/// The quote that begins and ends a value.
#[derive(Clone, Copy, Debug)]
pub enum Quote {
    Single,
    Double,
}

impl PartialEq for Quote {
    ghost eq = { on quote_character ◌==◌ };

    ghost laws = { Prim.search (comparing, rules) };

    fn eq(&self, other: &Quote) -> bool {
        quote_character(*self) == quote_character(*other)
    }
}

impl Eq for Quote {
    ghost laws = { Prim.search (comparing, rules) };
}

/// A URI attribute. `src`, `data` and `href` are kept apart, since some tags refuse a value at their start.
#[derive(Clone, Copy, Debug, PartialEq, Eq)]
pub enum UriName {
    Src,
    Data,
    Href,
    Other,
}

/// The kind of an attribute.
#[derive(Clone, Copy, Debug, PartialEq, Eq)]
pub enum Attribute {
    Uri(UriName),
    Event,
    NoPrint,
    Style,
    Plain,
}

/// The part of a URI, by the static characters of an attribute's value so far. RFC 3986, section 3.
#[derive(Clone, Copy, Debug, PartialEq, Eq)]
pub enum UriPart {
    /// Before the first character.
    Start,
    /// After characters that begin one of the four known schemes.
    Scheme(Prefix),
    /// After others that may still be a scheme, or a path.
    NoScheme,
    /// Where a value stood at the start.
    AfterStart,
    Path,
    Query,
    Fragment,
    /// After a colon that ends none of the known schemes.
    BadScheme,
}

/// The value of an attribute so far, by the attribute's kind.
#[derive(Clone, Copy, Debug, PartialEq, Eq)]
pub enum AttributeValue {
    Uri(UriName, UriPart),
    Event,
    NoPrint,
    Style(CssState),
    Plain,
}

/// An element whose text isn't data, with the state of its script or style.
#[derive(Clone, Copy, Debug, PartialEq, Eq)]
pub enum Element {
    Title,
    Textarea,
    Style(CssState),
    Xmp,
    Iframe,
    Noembed,
    Noframes,
    Noscript,
    Script(JsState),
}

/// What an element's text begins that may be its end tag, or a comment in a script.
#[derive(Clone, Copy, Debug, PartialEq, Eq)]
pub enum Begun {
    /// So many characters of `</` and the element's name.
    EndTag(u8),
    /// `<!`
    Bang,
    /// `<!-`
    BangDash,
}

/// A row of the table within a tag, past its name.
#[derive(Clone, Copy, Debug, PartialEq, Eq)]
pub enum TagRow {
    /// Before attribute name state. After attribute name state is this one too.
    BeforeName,
    /// The same, directly after a printed block of attributes.
    AfterPrinted,
    /// Attribute name state, with the name so far.
    AttributeName(Name),
    /// Before attribute value state.
    BeforeValue(Attribute),
    /// Attribute value (double-quoted) state, attribute value (single-quoted) state.
    Quoted(Quote, AttributeValue),
    /// Attribute value (unquoted) state.
    Unquoted(AttributeValue),
    /// After attribute value (quoted) state.
    AfterQuoted,
    /// Self-closing start tag state.
    SelfClosing,
}

/// A row of the table in a comment or a declaration.
#[derive(Clone, Copy, Debug, PartialEq, Eq)]
pub enum DeclarationRow {
    /// Bogus comment state.
    BogusComment,
    /// DOCTYPE state and those after it.
    Doctype,
    /// Comment start state.
    CommentStart,
    /// Comment start dash state.
    StartDash,
    /// Comment state.
    Comment,
    /// Comment end dash state.
    EndDash,
    /// Comment end state.
    CommentEnd,
    /// Comment end bang state.
    EndBang,
}

/// A row of the table: a state of the tokenizer of WHATWG HTML, 13.2.5, and what it keeps.
#[derive(Clone, Copy, Debug, PartialEq, Eq)]
pub enum HtmlRow {
    /// Data state.
    Data,
    /// Tag open state.
    TagOpen,
    /// End tag open state.
    EndTagOpen,
    /// Tag name state, with the name so far.
    TagName(TagKind, Name),
    /// A state within a tag, past its name.
    InTag(Tag, TagRow),
    /// Markup declaration open state, with the characters so far that begin a comment or a DOCTYPE.
    MarkupDeclaration(Name),
    /// A state of a comment or a declaration.
    InDeclaration(DeclarationRow),
    /// RCDATA state, RAWTEXT state, script data state.
    Within(Element),
    /// The less-than sign, end tag open and end tag name states of these three, script data escape start state and
    /// script data escape start dash state.
    BegunEndTag(Element, Begun),
    /// Past the end of a tag that a text of kind attributes stands in.
    Outside,
    /// Text that isn't HTML.
    Plain,
}

/// A reference whose `&` isn't decided. WHATWG HTML, 13.2.5, character reference state and those after it.
#[derive(Clone, Copy, Debug, PartialEq, Eq)]
pub enum Reference {
    /// None.
    Decided,
    /// The characters after `&`, while they begin a known name or a number.
    Begun(Prefix),
    /// Letters and digits that begin no known name.
    NoName,
}

/// The state of the tokenizer after the characters of a text.
#[derive(Clone, Copy, Debug, PartialEq, Eq)]
pub struct State {
    pub(crate) row: HtmlRow,
    pub(crate) reference: Reference,
}

/// The part of the markup that a state is in.
#[derive(Clone, Copy, Debug, PartialEq, Eq)]
pub enum Part {
    /// Text between tags.
    Text,
    /// The name of a tag.
    TagName,
    /// The name of an attribute.
    AttrName,
    /// The value of an attribute.
    AttrValue,
    /// Anything else.
    Hidden,
}
