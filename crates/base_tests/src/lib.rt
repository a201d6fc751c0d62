//! Tests of crates that others depend on: of soy_base, esc_table, bidi_class, plural_rules, soy_io, work_gen and
//! bidi_preview. They are apart from these, since a check of a crate's tests proves the crate anew. Nothing is handed
//! out. Depends on them.
#![tactic(auto)]

#[cfg(test)]
mod base;
#[cfg(test)]
mod classes;
#[cfg(test)]
mod files;
#[cfg(test)]
mod languages;
#[cfg(test)]
mod previews;
#[cfg(test)]
mod rules;
#[cfg(test)]
mod tables;
#[cfg(test)]
mod workloads;
