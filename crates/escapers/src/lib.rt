//! Makes a value's text safe at the place of a page where it is printed.
//!
//! `escaper_for` is the table of places and classes of values, and `escape` gives the escaped form of a text by an
//! escaper, exactly `esc` of the text's characters. For an escaper by characters `put_char` gives the form of one
//! character and `plain_prefix` what stands for itself, so that an escaped text can be made piece by piece; where a
//! text passes or is replaced whole, `may_start_uri` and `is_css_value` say which. The laws of `laws` say in the terms
//! of HTML, scripts, styles and URIs what escaped texts have and lack, for every text.
//!
//! `Wrap` and `AsIs` are named here, as the table names them, but `escape` makes neither: a wrapped text has an element
//! with its direction around it, and what is printed as it is has no text of its own.
//!
//! Depends on `soy_base`, `esc_table`, on `script_state` for its laws, and on the kit's `percent_encoding`.
#![tactic(auto)]

mod alphanumeric;
mod characters;
mod css;
mod escaper;
mod escaping;
mod js;
pub mod laws;
mod push;
mod uri;

pub use characters::{escaped_char_len, plain_prefix, put_char};
pub use css::is_css_value;
pub use escaper::{Escaper, escaper_for};
pub use escaping::escape;
pub use uri::may_start_uri;
