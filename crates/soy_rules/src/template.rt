//! A template among those of all files.

ghost use Rattle.std.specs.Prelude.{◌≡◌};
ghost use Rattle.soy_rules.specs.Templates.{joined_name};

use soy_base::Text;
use soy_tree::Template;

/// A template, with the number of its file, its namespace and its full name.
#[derive(Drop)]
pub struct Declared<'a> {
    pub file: u32,
    pub namespace: &'a Text,
    pub template: &'a Template,
    pub full: Text,
    ghost named: { full ≡ joined_name namespace.now template.now.name },
}
