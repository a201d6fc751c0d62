//! The types that parser, checker, meaning, compiler and renderer share: types, values, expressions,
//! nodes, messages, trees and the parts of translations.
//!
//! Each `copy` gives an equal tree. In specs/ the same trees stand once more as plain data.
//! Depends on soy_base and plural_rules.
#![tactic(auto)]

mod bundle;
mod expr;
mod message_text;
mod node;
mod soy_type;
mod tree;
mod value;

pub use bundle::{
    Bundle, ExactArm, MsgPart, NamedArm, PluralPart, SelectArm, SelectPart, Translation,
};
pub use expr::{BinaryOp, Expr, ExprNode};
pub use message_text::{is_message_text, is_message_text_with};
pub use node::{
    Argument, Arm, Case, Form, Given, Message, MessageBody, Node, PluralCase, SelectCase,
};
pub use soy_type::{Field, SoyType};
pub use tree::{Param, Template, Tree};
pub use value::{Entry, Value};
