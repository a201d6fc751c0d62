//! Renders a program on demand: the next bytes of a page, into a room of any size, without the page being held.
//!
//! `Rendering::begin` makes a rendering of a template of a program under data, and each `pull` gives the next bytes. A
//! rendering keeps frames of numbers and variables, which name parts of the data by place, and is handed program and
//! data again at each call. Its contracts are over `Rest`: at first what `run` gives, and after each pull what follows.
//! Depends on soy_base, soy_tree, soy_rules, soy_expr, soy_pieces, template_ir and value_cursor.
#![tactic(auto)]

mod begun;
mod binding;
mod choosing;
mod field_names;
mod fields;
mod frame;
mod held;
mod ints;
mod links;
mod machine;
mod names;
mod parts;
mod ready;
mod rendering;
mod scene;
mod showing;
mod stack;
mod step_call;
mod step_choice;
mod step_let;
mod step_loop;
mod step_print;
mod texts;
mod truth;
mod valuing;
mod variable_stack;

pub use rendering::Rendering;
