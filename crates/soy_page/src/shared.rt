//! Templates that pages share.

ghost use Rattle.std.specs.Prelude.{◌≡◌, IfOk};
ghost use Rattle.std.specs.Arc.{arc_value};
ghost use Rattle.soy_page.specs.WereCompiled.{WereCompiled};

use crate::templates::Templates;
use soy_base::OutOfMemory;
use std::alloc::Global;
use std::marker::Model;
use std::sync::Arc;

/// Templates that were compiled, with what shares them: they are let go with the last of those. Contracts see them as
/// the templates.
#[derive(Drop)]
pub struct Shared {
    templates: Arc<Templates, Global>,
}

impl Model for Shared {
    ghost use Rattle.std.specs.Arc.{arc_value};
    ghost use Rattle.soy_page.specs.WereCompiled.{WereCompiled};
    ghost use Rattle.soy_page.specs.contracts.templates.Templates as code_templates;
    ghost use Rattle.soy_page.specs.declared.templates.Templates.{Templates};

    ghost Value = { Templates };

    ghost coded = { code_templates.the_row.coded };

    ghost view = { λ s. arc_value s.templates };

    ghost invariant = { λ s. WereCompiled (arc_value s.templates) };
}

impl Shared {
    /// Shares templates that were compiled.
    pub fn new(alloc: Global, templates: Templates) -> Result<Shared, OutOfMemory>
        requires { WereCompiled templates }
        ensures { IfOk result (λ shared. shared ≡ templates) }
    {
        let templates = Arc::new(alloc, templates)?;
        Ok(Shared { templates })
    }

    /// The templates.
    pub fn templates(&self) -> &Templates
        ensures same { result.now ≡ self.now }
        ensures compiled { WereCompiled self.now }
    {
        &self.templates
    }

    /// The templates for one more that shares them.
    pub fn share(&self) -> Result<Arc<Templates, Global>, OutOfMemory>
        ensures { IfOk result (λ templates. arc_value templates ≡ self.now) }
    {
        Ok(Arc::try_clone(&self.templates)?)
    }
}
