//! Tests of soy_desk, over programs of two texts that are made by hand. They stand apart from it, since a check of a
//! crate's tests proves the crate anew. Nothing is handed out. Depends on soy_desk, and on soy_base, soy_tree,
//! plural_rules and template_ir for what a desk is given.
#![tactic(auto)]

#[cfg(test)]
mod programs;
#[cfg(test)]
mod turns;
