//! What a token is to a type.

ghost use Rattle.std.specs.Prelude.{◌≡◌};
ghost use Rattle.expr_parser.specs.TypeTerminals.{type_terminal_of, type_name, type_symbol, names_type, is_less};

use soy_lexer::{Token, TokenKind};

/// A word, as the name of a type.
#[derive(Clone, Copy)]
pub enum TypeName {
    Null,
    Bool,
    Int,
    Str,
    Html,
    Attributes,
    List,
    Map,
    /// The name of no type.
    Unknown,
}

/// What a token is to a type: a word, a delimiter or nothing.
#[derive(Clone, Copy)]
pub enum TypeTerminal {
    Word(TypeName),
    Less,
    Greater,
    Comma,
    Colon,
    Bar,
    OpenBracket,
    CloseBracket,
    Other,
}

impl TypeTerminal {
    /// What a token is.
    pub fn of(token: &Token) -> TypeTerminal
        ensures { result ≡ type_terminal_of token.now }
    {
        match token.kind {
            TokenKind::Word => TypeTerminal::Word(TypeName::of(token.text.text())),
            TokenKind::Symbol => TypeTerminal::of_symbol(token.text.text()),
            _ => TypeTerminal::Other,
        }
    }

    /// Whether it is `<`.
    pub(crate) fn is_less(self) -> bool
        ensures { result ≡ is_less self }
    {
        match self {
            TypeTerminal::Less => true,
            _ => false,
        }
    }

    /// A symbol of types.
    fn of_symbol(text: &str) -> TypeTerminal
        ensures { result ≡ type_symbol text.now }
    {
        match text {
            "<" => TypeTerminal::Less,
            ">" => TypeTerminal::Greater,
            "," => TypeTerminal::Comma,
            ":" => TypeTerminal::Colon,
            "|" => TypeTerminal::Bar,
            "[" => TypeTerminal::OpenBracket,
            "]" => TypeTerminal::CloseBracket,
            _ => TypeTerminal::Other,
        }
    }
}

impl TypeName {
    /// Whether the name names a type, where a `<` follows it or doesn't.
    pub(crate) fn names_type(self, less_follows: bool) -> bool
        ensures { result ≡ names_type self less_follows }
    {
        match self {
            TypeName::List | TypeName::Map => less_follows,
            TypeName::Unknown => false,
            _ => true,
        }
    }

    /// The name that a word is.
    fn of(text: &str) -> TypeName
        ensures { result ≡ type_name text.now }
    {
        match text {
            "null" => TypeName::Null,
            "bool" => TypeName::Bool,
            "int" => TypeName::Int,
            "string" => TypeName::Str,
            "html" => TypeName::Html,
            "attributes" => TypeName::Attributes,
            "list" => TypeName::List,
            "map" => TypeName::Map,
            _ => TypeName::Unknown,
        }
    }
}
