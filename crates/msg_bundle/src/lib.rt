//! Translation bundles.
//!
//! `read_bundle` reads the JSON of a bundle beside the catalogue of the messages that it translates: a direction,
//! plural rules, and the parts of each translation; or it says with a code and a path what is at fault first. Ids that
//! the catalogue lacks are passed over. Depends on soy_base, plural_rules, soy_tree, soy_rules, icu_text, msg_extract
//! and serde_json.
#![tactic(auto)]

mod fault;
mod form;
mod laws;
mod nameable;
mod names;
mod read;
mod rules;
mod sources;
mod translations;

pub use fault::BundleFault;
pub use laws::{law_bundle, law_equal_texts, law_fits};
pub use read::read_bundle;
