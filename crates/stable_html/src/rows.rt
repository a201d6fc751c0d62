//! Worked pages, which the checker computes.
ghost use Rattle.std.specs.Prelude.{◌≡◌, [], codes, pos};
ghost use Rattle.soy_base.specs.declared.kind.Kind.TheVariants as kind;
ghost use Rattle.soy_base.specs.declared.place.Place.TheVariants as place;
ghost use Rattle.soy_base.specs.declared.place.ValueClass.TheVariants as class;
ghost use Rattle.script_state.specs.declared.js_state.JsState.TheVariants as js;
ghost use Rattle.html_state.specs.Start.{start};
ghost use Rattle.soy_pieces.specs.Outcome.{pieces_of_outcome};
ghost use Rattle.soy_pieces.specs.RunRows.{attributes_block, block_twice, calls};
ghost use Rattle.stable_html.specs.InnerRoles.{inner_rows};
ghost use Rattle.stable_html.specs.Roles.{roles};
ghost use Rattle.stable_html.specs.Shape.{shape};
ghost use Rattle.stable_html.specs.WorkedPages.{bold_page, bold_roles, cut_end_page, cut_end_shape, cut_tag_page};
ghost use Rattle.stable_html.specs.WorkedPages.{cut_tag_shape, declared_page, declared_shape, escaped_rows};
ghost use Rattle.stable_html.specs.WorkedPages.{given_up_page, given_up_shape, input_shape, italic_shape, script_at};
ghost use Rattle.stable_html.specs.WorkedPages.{script_page, script_shape, style_page, style_shape, text_page};
ghost use Rattle.stable_html.specs.WorkedPages.{text_shape, titled_page, titled_shape, unquoted_page, unquoted_shape};
ghost use Rattle.stable_html.specs.WorkedPages.{upper_page, upper_shape};

/// Of templates: two data with the same choices give one shape, and two with other choices different ones. Of pages:
/// references and an empty value, a script in two runs, what proves to be no end tag, text with what begins no tag,
/// a DOCTYPE, comments and RAWTEXT, a style in three runs, attributes without quotes, names in upper case, and tokens
/// that the page cuts off; roles; and the inner roles of a string in a script.
pub fn law_markup_rows()
    ensures block { shape (start kind.Html) (pieces_of_outcome (block_twice (codes "7")))
        ≡ italic_shape (italic_shape []) }
    ensures other_block { shape (start kind.Html) (pieces_of_outcome (block_twice (codes "42")))
        ≡ italic_shape (italic_shape []) }
    ensures attributes { shape (start kind.Html) (pieces_of_outcome attributes_block) ≡ input_shape }
    ensures apart { shape (start kind.Html) (pieces_of_outcome (calls (pos 1)))
        ≡ shape (start kind.Html) (pieces_of_outcome (calls (pos 2))) → ⊥ }
    ensures titled { shape (start kind.Html) titled_page ≡ titled_shape }
    ensures script { shape (start kind.Html) script_page ≡ script_shape }
    ensures given_up { shape (start kind.Html) given_up_page ≡ given_up_shape }
    ensures text { shape (start kind.Html) text_page ≡ text_shape }
    ensures declared { shape (start kind.Html) declared_page ≡ declared_shape }
    ensures style { shape (start kind.Html) style_page ≡ style_shape }
    ensures unquoted { shape (start kind.Html) unquoted_page ≡ unquoted_shape }
    ensures upper_case { shape (start kind.Html) upper_page ≡ upper_shape }
    ensures cut_tag { shape (start kind.Html) cut_tag_page ≡ cut_tag_shape }
    ensures cut_end_tag { shape (start kind.Html) cut_end_page ≡ cut_end_shape }
    ensures bold { roles (start kind.Html) bold_page ≡ bold_roles }
    ensures escape { inner_rows place.JsValue class.Text (script_at js.Code) (codes "it\\x27s") ≡ escaped_rows }
{}
