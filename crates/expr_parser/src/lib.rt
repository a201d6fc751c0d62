//! Expressions from the tokens of a command, by a machine that takes a token a step: a stack holds what is open, and an
//! operator takes its last operand as soon as a token comes that doesn't bind more tightly.
//!
//! `parse_expr` reads the longest prefix of the tokens with which some expression begins, and answers by `SpellsExpr`,
//! which has a case for each row of the grammar: the expression and the number of its tokens, or the first token that
//! no expression has there, or the first that lies too deep. `ExprState` is the machine itself, for a parser whose
//! commands hold expressions. Depends on soy_base, soy_lexer and soy_tree.
#![tactic(auto)]

mod frame;
mod laws;
mod operand;
mod parse;
mod state;
mod terminal;
mod type_frame;
mod type_state;
mod type_terminal;

pub use laws::{
    law_expr_machine, law_expr_spans, law_formed, law_one_answer, law_one_expr, law_one_type,
    law_type_machine, law_unknown_type,
};
pub use operand::Operand;
pub use parse::{parse_expr, parse_type};
pub use state::ExprState;
pub use type_frame::TypeOperand;
pub use type_state::{TypeState, TypeStep};
