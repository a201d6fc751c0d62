//! Templates that are compiled and kept, and pages of them that are made pull by pull.
//!
//! A page shares its templates and owns its data, so it can be kept as long as is wanted, and it is pulled without
//! being lent anything. What it gives is what its rendering gives (render_core). Depends on soy_front for compiled
//! files, on soy_types for data, and on render_core.
#![tactic(auto)]

mod fault;
mod opening;
mod page;
mod pulling;
mod shared;
mod templates;

pub use fault::PageFault;
pub use page::Page;
pub use shared::Shared;
pub use templates::Templates;
