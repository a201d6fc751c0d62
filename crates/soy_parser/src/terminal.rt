//! What a token is to a command.

ghost use Rattle.std.specs.Prelude.{◌≡◌};
ghost use Rattle.soy_parser.specs.CommandTerminals.{block_name, command_symbol, command_terminal_of, command_word};
ghost use Rattle.soy_parser.specs.CommandWords.{last_word, second_word, third_word};

use soy_lexer::{Token, TokenKind};

/// A word that begins a command, stands in one or names an attribute.
#[derive(Clone, Copy)]
pub enum CommandWord {
    Namespace,
    Template,
    Param,
    Print,
    If,
    ElseIf,
    Else,
    Switch,
    Case,
    Default,
    For,
    In,
    Let,
    Call,
    Msg,
    FallbackMsg,
    Plural,
    Select,
    Kind,
    Visibility,
    Data,
    Desc,
    Meaning,
    Offset,
    Phname,
    Space,
    Nil,
    LeftBrace,
    RightBrace,
    NoBreakSpace,
    /// Any other name.
    Other,
}

/// The name of a block command, in the command that closes it.
#[derive(Clone, Copy)]
pub enum BlockName {
    Template,
    If,
    Switch,
    For,
    Let,
    Call,
    Param,
    Msg,
    Plural,
    Select,
    /// The name of none.
    Other,
}

/// What a token is to a command.
#[derive(Clone, Copy)]
pub enum CommandTerminal {
    Text,
    Begin,
    Close(BlockName),
    Word(CommandWord),
    Variable,
    Int,
    Str,
    Attribute,
    Dot,
    Comma,
    Colon,
    Question,
    Equals,
    At,
    LineFeed,
    CarriageReturn,
    Tab,
    End,
    SlashEnd,
    Other,
}

impl CommandTerminal {
    /// What a token is.
    pub(crate) fn of(token: &Token) -> CommandTerminal
        ensures { result ≡ command_terminal_of token.now }
    {
        match token.kind {
            TokenKind::Text => CommandTerminal::Text,
            TokenKind::Begin => CommandTerminal::Begin,
            TokenKind::BeginClose => CommandTerminal::Close(BlockName::of(token.text.text())),
            TokenKind::Word => CommandTerminal::Word(CommandWord::of(token.text.text())),
            TokenKind::Variable => CommandTerminal::Variable,
            TokenKind::Int => CommandTerminal::Int,
            TokenKind::Str => CommandTerminal::Str,
            TokenKind::Attribute => CommandTerminal::Attribute,
            TokenKind::Symbol => CommandTerminal::of_symbol(token.text.text()),
            TokenKind::End => CommandTerminal::End,
            TokenKind::SlashEnd => CommandTerminal::SlashEnd,
        }
    }

    /// A symbol of commands.
    fn of_symbol(text: &str) -> CommandTerminal
        ensures { result ≡ command_symbol text.now }
    {
        match text {
            "." => CommandTerminal::Dot,
            "," => CommandTerminal::Comma,
            ":" => CommandTerminal::Colon,
            "?" => CommandTerminal::Question,
            "=" => CommandTerminal::Equals,
            "@" => CommandTerminal::At,
            "\\n" => CommandTerminal::LineFeed,
            "\\r" => CommandTerminal::CarriageReturn,
            "\\t" => CommandTerminal::Tab,
            _ => CommandTerminal::Other,
        }
    }
}

impl CommandWord {
    /// The command word that a name is. At most eight are compared in a function, which it does by their lengths first.
    fn of(text: &str) -> CommandWord
        ensures { result ≡ command_word text.now }
    {
        match text {
            "namespace" => CommandWord::Namespace,
            "template" => CommandWord::Template,
            "param" => CommandWord::Param,
            "print" => CommandWord::Print,
            "if" => CommandWord::If,
            "elseif" => CommandWord::ElseIf,
            "else" => CommandWord::Else,
            "switch" => CommandWord::Switch,
            _ => CommandWord::of_second(text),
        }
    }

    /// The same of a name that is none of the first words.
    fn of_second(text: &str) -> CommandWord
        ensures { result ≡ second_word text.now }
    {
        match text {
            "case" => CommandWord::Case,
            "default" => CommandWord::Default,
            "for" => CommandWord::For,
            "in" => CommandWord::In,
            "let" => CommandWord::Let,
            "call" => CommandWord::Call,
            "msg" => CommandWord::Msg,
            "fallbackmsg" => CommandWord::FallbackMsg,
            _ => CommandWord::of_third(text),
        }
    }

    /// And of the second ones.
    fn of_third(text: &str) -> CommandWord
        ensures { result ≡ third_word text.now }
    {
        match text {
            "plural" => CommandWord::Plural,
            "select" => CommandWord::Select,
            "kind" => CommandWord::Kind,
            "visibility" => CommandWord::Visibility,
            "data" => CommandWord::Data,
            "desc" => CommandWord::Desc,
            "meaning" => CommandWord::Meaning,
            "offset" => CommandWord::Offset,
            _ => CommandWord::of_last(text),
        }
    }

    /// And of the third ones.
    fn of_last(text: &str) -> CommandWord
        ensures { result ≡ last_word text.now }
    {
        match text {
            "phname" => CommandWord::Phname,
            "sp" => CommandWord::Space,
            "nil" => CommandWord::Nil,
            "lb" => CommandWord::LeftBrace,
            "rb" => CommandWord::RightBrace,
            "nbsp" => CommandWord::NoBreakSpace,
            _ => CommandWord::Other,
        }
    }
}

impl BlockName {
    /// The block command that a name is that of.
    fn of(text: &str) -> BlockName
        ensures { result ≡ block_name text.now }
    {
        match text {
            "template" => BlockName::Template,
            "if" => BlockName::If,
            "switch" => BlockName::Switch,
            "for" => BlockName::For,
            "let" => BlockName::Let,
            "call" => BlockName::Call,
            "param" => BlockName::Param,
            "msg" => BlockName::Msg,
            "plural" => BlockName::Plural,
            "select" => BlockName::Select,
            _ => BlockName::Other,
        }
    }
}
