//! From the text of a template file to its tokens: text runs with their lines joined, literals, and
//! the tokens of commands, each with its span and text; or the first offset where no token begins.
//!
//! `lex` answers by `Tokens` and `FirstFault`, which cut the whole text into segments and join the
//! list of a run's lines, while the code joins as it reads. Depends on soy_base.
#![tactic(auto)]

mod begins;
mod command;
mod laws;
mod lexer;
mod mode;
mod run;
mod source_segment;
mod string;
mod text;
mod text_segment;
mod token;

pub use laws::{law_longest_token, law_segments_are_the_text, law_tokens_unique};
pub use lexer::lex;
pub use token::{Token, TokenKind};
