//! What a slot of a caller's holds.

use soy_page::{Page, Shared};

/// Compiled templates, or a page.
#[derive(Drop)]
pub enum Held {
    Templates(Shared),
    Page(Page),
}
