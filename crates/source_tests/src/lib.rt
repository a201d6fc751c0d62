//! Tests of the crates that read sources, of soy_lexer, expr_parser and soy_parser. They stand apart from them, since a
//! check of a crate's tests proves the crate anew. Nothing is handed out. Depends on what soy_parser depends on, and on
//! it.
#![tactic(auto)]

#[cfg(test)]
mod expressions;
#[cfg(test)]
mod parser;
#[cfg(test)]
mod texts;
#[cfg(test)]
mod tokens;
