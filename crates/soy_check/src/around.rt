//! What a body is checked against.

ghost use Rattle.std.specs.Prelude.{◌≡◌, reverse};
ghost use Rattle.soy_check.specs.FullNames.{full_names};

use crate::names::Names;
use crate::template::Indexed;
use soy_base::Text;

/// The templates of all files with their full names, and the namespace and the template of the body.
#[derive(Drop)]
pub(crate) struct Around<'n, 'a, 't> {
    pub(crate) declared: &'a [Indexed<'t>],
    pub(crate) names: &'n Names<'a>,
    pub(crate) namespace: &'t Text,
    pub(crate) own: &'a Indexed<'t>,
    ghost indexed: { names.now ≡ reverse (full_names declared.now) },
}
