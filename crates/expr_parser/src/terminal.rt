//! What a token is to an expression.

ghost use Rattle.std.specs.Prelude.{◌≡◌};
ghost use Rattle.expr_parser.specs.Symbols.{last_symbol, second_symbol};
ghost use Rattle.expr_parser.specs.Terminals.{terminal_of, word_terminal, symbol_terminal, int_terminal, int_after};

use soy_lexer::{Token, TokenKind};
use soy_tree::BinaryOp;

/// What a token is to an expression: an atom, an operator, a delimiter or nothing.
#[derive(Clone, Copy)]
pub enum Terminal {
    Null,
    Bool(bool),
    Int(i64),
    Str,
    Variable,
    Not,
    Minus,
    /// An operator between two operands of the levels 3 to 8, but for `-`.
    Infix(BinaryOp),
    /// `?:`, which is also written `??`.
    Coalesce,
    Question,
    Colon,
    /// `.`, or `?.` where the bool says that it takes null.
    Dot(bool),
    /// `[`, or `?[` where the bool says that it takes null.
    OpenBracket(bool),
    CloseBracket,
    OpenParen,
    CloseParen,
    Other,
}

impl Terminal {
    /// What a token is.
    pub fn of(token: &Token) -> Terminal
        ensures { result ≡ terminal_of token.now }
    {
        match token.kind {
            TokenKind::Word => Terminal::of_word(token.text.text()),
            TokenKind::Variable => Terminal::Variable,
            TokenKind::Int => Terminal::of_int(token.text.text()),
            TokenKind::Str => Terminal::Str,
            TokenKind::Symbol => Terminal::of_symbol(token.text.text()),
            _ => Terminal::Other,
        }
    }

    /// An int up to the largest.
    fn of_int(text: &str) -> Terminal
        ensures { result ≡ int_terminal (int_after 0 text.now) }
    {
        match int_value(text.as_bytes()) {
            Some(value) => Terminal::Int(value),
            None => Terminal::Other,
        }
    }

    /// A word of expressions.
    fn of_word(text: &str) -> Terminal
        ensures { result ≡ word_terminal text.now }
    {
        match text {
            "null" => Terminal::Null,
            "true" => Terminal::Bool(true),
            "false" => Terminal::Bool(false),
            "not" => Terminal::Not,
            "and" => Terminal::Infix(BinaryOp::And),
            "or" => Terminal::Infix(BinaryOp::Or),
            _ => Terminal::Other,
        }
    }

    /// A symbol of expressions. At most eight are compared in a function, which it does by their lengths first.
    fn of_symbol(text: &str) -> Terminal
        ensures { result ≡ symbol_terminal text.now }
    {
        match text {
            "*" => Terminal::Infix(BinaryOp::Mul),
            "%" => Terminal::Infix(BinaryOp::Rem),
            "+" => Terminal::Infix(BinaryOp::Add),
            "-" => Terminal::Minus,
            "<" => Terminal::Infix(BinaryOp::Lt),
            ">" => Terminal::Infix(BinaryOp::Gt),
            "<=" => Terminal::Infix(BinaryOp::Le),
            ">=" => Terminal::Infix(BinaryOp::Ge),
            _ => Terminal::of_second_symbol(text),
        }
    }

    /// The same of a symbol that is none of those.
    fn of_second_symbol(text: &str) -> Terminal
        ensures { result ≡ second_symbol text.now }
    {
        match text {
            "==" => Terminal::Infix(BinaryOp::Eq),
            "!=" => Terminal::Infix(BinaryOp::Ne),
            "?:" => Terminal::Coalesce,
            "??" => Terminal::Coalesce,
            "?" => Terminal::Question,
            ":" => Terminal::Colon,
            "." => Terminal::Dot(false),
            "?." => Terminal::Dot(true),
            _ => Terminal::of_last_symbol(text),
        }
    }

    /// And of one that is none of these either.
    fn of_last_symbol(text: &str) -> Terminal
        ensures { result ≡ last_symbol text.now }
    {
        match text {
            "[" => Terminal::OpenBracket(false),
            "?[" => Terminal::OpenBracket(true),
            "]" => Terminal::CloseBracket,
            "(" => Terminal::OpenParen,
            ")" => Terminal::CloseParen,
            _ => Terminal::Other,
        }
    }
}

const LARGEST_INT: u64 = 9007199254740991;

/// The int that decimal digits write, if none on the way is over the largest.
fn int_value(digits: &[u8]) -> Option<i64>
    ensures { result ≡ int_after 0 digits.now }
{
    let mut value = 0u64;
    for digit in digits {
        if !digit.is_ascii_digit() {
            return None;
        }
        value = 10 * value + (*digit - b'0') as u64;
        if value > LARGEST_INT {
            return None;
        }
    }
    Some(value as i64)
}
