//! Tests of the crates of trees, values and messages: of soy_tree, soy_types, soy_expr, icu_text, msg_extract and
//! msg_bundle. They stand apart from these, since a check of a crate's tests proves the crate anew. Nothing is handed
//! out. Depends on what they depend on, and on them.
#![tactic(auto)]

#[cfg(test)]
mod bundles;
#[cfg(test)]
mod catalogues;
#[cfg(test)]
mod data;
#[cfg(test)]
mod evaluation;
#[cfg(test)]
mod patterns;
#[cfg(test)]
mod trees;
#[cfg(test)]
mod wide;
