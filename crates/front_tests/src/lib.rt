//! Tests of soy_front. They stand apart from it, since a check of a crate's tests proves the crate anew. Nothing is
//! handed out. Depends on soy_front, and on soy_base and msg_bundle for its faults.
#![tactic(auto)]

#[cfg(test)]
mod accepting;
#[cfg(test)]
mod compiling;
#[cfg(test)]
mod details;
