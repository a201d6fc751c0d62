//! Pages.

use crate::templates::Templates;
use render_core::Rendering;
use soy_tree::Value;
use std::alloc::Global;
use std::marker::Model;
use std::sync::Arc;

/// A page that is made pull by pull: its templates, which it shares, its data, and its rendering, which fits both.
#[derive(Drop)]
pub struct Page {
    pub(crate) templates: Arc<Templates, Global>,
    pub(crate) input: Value,
    pub(crate) rendering: Rendering,
}

impl Model for Page {
    ghost use Rattle.std.specs.Arc.{arc_value};
    ghost use Rattle.std.specs.Coded.{codes};
    ghost use Rattle.render_core.specs.Rest.{Fits};
    ghost use Rattle.render_core.specs.contracts.rendering.Rendering as code_rendering;
    ghost use Rattle.soy_page.specs.PageState.{PageState};
    ghost use Rattle.soy_page.specs.contracts.templates.Templates as code_templates;
    ghost use Rattle.soy_tree.specs.ViewValues.{view_value};
    ghost use Rattle.soy_tree.specs.contracts.value.Value as value;

    ghost Value = { PageState };

    ghost coded = { Prim.hlevel (
      codes,
      code_templates.the_row.coded,
      value.the_row.coded,
      code_rendering.the_row.coded,
    ) };

    ghost view = { λ p. record {
      templates = arc_value p.templates;
      input = p.input;
      rendering = p.rendering;
    } };

    ghost invariant = { λ p. Fits (arc_value p.templates).compiled.program (view_value p.input) p.rendering };
}
