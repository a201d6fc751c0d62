//! Messages as a translator is given them: placeholders with their names, canonical texts, ids and the catalogue.
//!
//! `extract` lists the messages of files, and `write_catalogue` writes them as JSON. A `NamedMessage` gives the id, the
//! placeholders and the selectors of one message, and `Translations` the translation that a bundle has for it. The text
//! of a message, read as a pattern, gives the parts of its source: `law_canonical_text`. Depends on soy_base, soy_tree,
//! soy_rules and plural_rules, and on indexmap, sha2, hex and serde_json.
#![tactic(auto)]

mod ascii;
mod base_name;
mod canonical;
mod catalogue;
mod content_key;
mod cut;
mod item;
mod laws;
mod messages;
mod name_key;
mod named_message;
mod named_placeholders;
mod names;
mod piece;
mod placeholder;
mod plain;
mod quoting;
mod role_names;
mod same;
mod selector;
mod translations;

pub use catalogue::{Catalogue, Listed, extract, write_catalogue};
pub use laws::{law_canonical_text, law_equal_parts, law_fits, law_written_text};
pub use named_message::{NamedMessage, message_id, placeholders};
pub use named_placeholders::NamedPlaceholders;
pub use placeholder::Placeholder;
pub use selector::Selector;
pub use translations::Translations;
