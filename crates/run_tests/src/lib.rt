//! Tests of soy_top: rows of words and files with what `run` answers, and runs over libraries and sinks that fail. They
//! stand apart from it, since a check of a crate's tests proves the crate anew. Nothing is handed out. Depends on
//! soy_io and soy_top, and on soy_base and html_state for the states of a page.
#![tactic(auto)]

#[cfg(test)]
mod calls;
#[cfg(test)]
mod canonical;
#[cfg(test)]
mod checks;
#[cfg(test)]
mod closure;
#[cfg(test)]
mod data;
#[cfg(test)]
mod directions;
#[cfg(test)]
mod example;
#[cfg(test)]
mod faults;
#[cfg(test)]
mod generated;
#[cfg(test)]
mod hostile;
#[cfg(test)]
mod limits;
#[cfg(test)]
mod many;
#[cfg(test)]
mod messages;
#[cfg(test)]
mod places;
#[cfg(test)]
mod plays;
#[cfg(test)]
mod plurals;
#[cfg(test)]
mod previews;
#[cfg(test)]
mod prints;
#[cfg(test)]
mod running;
#[cfg(test)]
mod shop;
#[cfg(test)]
mod sources;
#[cfg(test)]
mod words;
