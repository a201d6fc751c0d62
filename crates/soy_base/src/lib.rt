//! What every other crate of the workspace names: refusals with their numbers and words, faults with their offsets,
//! texts, lists, stacks and boxes as contracts see them, a counter of steps, and texts cut by their characters.
//!
//! Each call is pinned by an equation on what it answers, and a refused call changes nothing. The steps between the
//! bytes of a text and its characters are proved here, so that the crates above speak of characters alone. Depends on
//! std alone.
#![tactic(auto)]

mod boxed;
mod code;
mod cuts;
mod direction;
mod fault;
mod kind;
mod memory;
mod name;
mod path;
mod place;
mod places;
mod position;
mod push;
mod row;
mod seq;
mod stack;
mod steps;
mod storage;
mod text;
mod white;

pub use boxed::Boxed;
pub use code::Code;
pub use cuts::{
    after_prefix, before, byte_len, cut, cut_at, first, first_part, is_empty, split_digits,
    split_line, split_name, split_while,
};
pub use direction::Dir;
pub use fault::{Fault, Span, TooDeep};
pub use kind::Kind;
pub use memory::{OutOfMemory, Refusal};
pub use name::{begins_name, continues_name, is_dotted_name, is_name};
pub use path::PathStep;
pub use place::{Place, Placing, ValueClass};
pub use places::Places;
pub use position::{Position, line_of};
pub use push::{push_char, push_text};
pub use row::Row;
pub use seq::Seq;
pub use stack::Stack;
pub use steps::Steps;
pub use text::{Text, copied_name, text_of};
pub use white::{is_line_break, is_template_space};
