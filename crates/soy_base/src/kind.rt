//! The kinds of templates and blocks.

/// What a template or a block gives: HTML, the attributes of a tag, or text.
#[derive(Clone, Copy, Debug, PartialEq, Eq)]
pub enum Kind {
    Html,
    Attributes,
    Text,
}
