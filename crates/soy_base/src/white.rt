//! White space of templates.
ghost use Rattle.std.specs.Prelude.{◌≡◌};
ghost use Rattle.soy_base.specs.WhiteSpace.{is_line_break, is_template_space};

/// Whether a line breaks at the character.
pub fn is_line_break(c: char) -> bool
    ensures { result ≡ is_line_break c }
{
    c == '\n' || c == '\r'
}

/// Whether the character is white space of Closure Templates.
pub fn is_template_space(c: char) -> bool
    ensures { result ≡ is_template_space c }
{
    c == ' ' || c == '\t' || is_line_break(c)
}
