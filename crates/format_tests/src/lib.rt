//! Tests of soy_format. They stand apart from it, since their trees are read by crates on which it doesn't depend. Nothing
//! is handed out. Depends on soy_format, and on the crates that read a tree.
#![tactic(auto)]

#[cfg(test)]
mod canonical;
