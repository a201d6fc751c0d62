//! Typed trees.

ghost use Rattle.std.specs.Prelude.{◌≡◌, option_map, slice_get};
ghost use Rattle.soy_rules.specs.Typed.{AreTyped, params_at, templates_of};

use soy_base::Seq;
use soy_tree::{Param, Template, Tree};
use std::marker::Model;

/// Trees that hold what the checker demands, which contracts see as the list of the trees.
#[derive(Drop)]
pub struct Typed {
    trees: Seq<Tree>,
}

impl Model for Typed {
    ghost use Rattle.std.specs.Prelude.{List};
    ghost use Rattle.soy_tree.specs.declared.tree.Tree.{Tree};
    ghost use Rattle.soy_rules.specs.Typed.{AreTyped};
    ghost use Rattle.std.specs.Coded.{codes};
    ghost use Rattle.soy_tree.specs.contracts.soy_type.SoyType as soy_type;
    ghost use Rattle.soy_tree.specs.contracts.expr.Expr as expr;
    ghost use Rattle.soy_tree.specs.contracts.node.Node as node;

    ghost Value = { List Tree };

    ghost coded = { Prim.hlevel (codes, soy_type.the_row.coded, expr.the_row.coded, node.the_row.coded) };

    ghost view = { λ t. t.trees };

    ghost invariant = { λ t. AreTyped t.trees };
}

impl Typed {
    /// These trees, which hold what is demanded. Takes no memory.
    pub fn new(trees: Seq<Tree>) -> Typed
        requires { AreTyped trees }
        ensures { result ≡ trees }
    {
        Typed { trees }
    }

    /// The trees, in order.
    pub fn trees(&self) -> &[Tree]
        ensures trees { result.now ≡ self.now }
        ensures typed { AreTyped result.now }
    {
        self.trees.items()
    }

    /// The parameters of the template of a number, templates being counted by first appearance. Takes no memory.
    pub fn params(&self, template: usize) -> &[Param]
        ensures { result.now ≡ params_at template (templates_of self.now) }
    {
        params_in(self.trees.items(), template)
    }
}

/// The parameters of the template of a number among those of the trees.
fn params_in(trees: &[Tree], template: usize) -> &[Param]
    ensures { result.now ≡ params_at template (templates_of trees.now) }
{
    let mut left = template;
    for tree in trees {
        let templates = tree.templates.items();
        if let Some(found) = template_at(templates, left) {
            return found.params.items();
        }
        left -= templates.len();
    }
    &[]
}

fn template_at(templates: &[Template], number: usize) -> Option<&Template>
    ensures { option_map (λ t. t.now) result ≡ slice_get templates.now number }
{
    templates.get(number)
}
