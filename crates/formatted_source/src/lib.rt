//! Canonical source is read as the tree that it was written for.
//!
//! Nothing here runs: the definitions of specs/ say which tokens canonical source has, and the law functions, each a
//! contract with an empty body, say that it has them, and that they spell what was written.
//!
//! Depends on `soy_format` for how a tree is written, and on `soy_lexer`, `expr_parser` and `soy_parser` for how a text
//! is read.
#![tactic(auto)]

mod laws;

pub use laws::{law_formatted_expr, law_formatted_file, law_formatted_tokens, law_formatted_type};
