//! The places of a page and the classes of values.

use crate::code::Code;

/// Where in a page a value stands, which decides how it is escaped.
#[derive(Clone, Copy, Debug, PartialEq, Eq)]
pub enum Place {
    /// Text between tags.
    Text,
    /// The text of a `title` or a `textarea`.
    Rcdata,
    /// Inside a tag, where an attribute may begin.
    Tag,
    /// A quoted value of an attribute that is no URI, script or style.
    Attr,
    /// The start of a URI.
    UriStart,
    /// The path of a URI.
    UriPath,
    /// The query of a URI.
    UriQuery,
    /// The fragment of a URI.
    UriFragment,
    /// A value of a script, outside its string literals.
    JsValue,
    /// A string literal of a script, in single quotes.
    JsSingle,
    /// A string literal of a script, in double quotes.
    JsDouble,
    /// A value of a style.
    CssValue,
    /// A string of a style, in quotes of either kind.
    CssString,
    /// Text that isn't HTML.
    Plain,
}

/// What kind of value is printed, which together with its place decides how it is escaped.
#[derive(Clone, Copy, Debug, PartialEq, Eq)]
pub enum ValueClass {
    /// A string, or a call of a template of kind text.
    Text,
    /// An int, or the count in a plural's branch.
    Int,
    /// A bool.
    Bool,
    /// Null.
    Null,
    /// A block or a call of kind html.
    Html,
    /// A block or a call of kind attributes.
    Attributes,
}

/// What happens to a value at a point of a page: it is taken at a place, or refused.
#[derive(Clone, Copy, Debug, PartialEq, Eq)]
pub enum Placing {
    /// A value is taken at this place.
    Takes(Place),
    /// No value may stand here; the code says why.
    Refuses(Code),
}
