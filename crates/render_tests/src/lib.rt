//! Tests of render_core: pages of files that soy_front compiles, pulled into rooms of several sizes. They stand apart
//! from it, since a check of a crate's tests proves the crate anew. Nothing is handed out. Depends on soy_front and
//! render_core, on soy_types for the data, and on soy_base, soy_tree and template_ir for their types.
#![tactic(auto)]

#[cfg(test)]
mod answers;
#[cfg(test)]
mod calls;
#[cfg(test)]
mod commands;
#[cfg(test)]
mod loops;
#[cfg(test)]
mod pages;
#[cfg(test)]
mod places;
#[cfg(test)]
mod pulling;
#[cfg(test)]
mod refused;
