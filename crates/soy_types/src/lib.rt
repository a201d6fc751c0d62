//! Reading data at types.
//!
//! `read_data` gives the values of parameters that are read of JSON, exactly as `Read` says, or the
//! code and the path of the first part that doesn't fit. What fits is read token by token (`token_reading`), or over
//! trees with lent texts (`lending`), as each optional parameter is. What these can't read, which is all that doesn't
//! fit and a little that does, is read again over the tree of `serde_json` (`reading`), which finds the path.
//! Depends on soy_base, soy_tree, soy_rules, serde_json, json, whose grammar it reads by, and fast_float for numbers.
#![tactic(auto)]

mod data;
mod fault;
mod json_unfit;
mod laws;
mod lending;
mod lent;
mod lent_unfit;
mod number;
mod path;
mod reading;
mod room;
mod shape;
mod token_reading;
mod unread;

pub use data::read_data;
pub use fault::DataFault;
pub use laws::{law_data, law_read, law_short_data};
