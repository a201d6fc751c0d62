//! Tests of soy_check, html_context and ir_build: files with the first demand that they don't meet, with the places of
//! their holes, and with their programs. They stand apart from these crates, since a check of a crate's tests proves
//! the crate anew, and since they read files and patterns. Nothing is handed out. Depends on the crates that read files
//! and patterns, and on these three.
#![tactic(auto)]

#[cfg(test)]
mod demands;
#[cfg(test)]
mod paths;
#[cfg(test)]
mod programs;
#[cfg(test)]
mod reading;
#[cfg(test)]
mod rows;
#[cfg(test)]
mod templates;
#[cfg(test)]
mod written;
