//! The table of HTML.
ghost use Rattle.std.specs.Prelude.{◌≡◌};
ghost use Rattle.esc_table.specs.HtmlRows.{html_rows};

use crate::rows;
use crate::table::Table;

const NO: bool = false;

const ROW: bool = true;

/// The lead bytes of the rows, sixteen in a line.
static LEAD_BYTES: [bool; 256] = [
    ROW, NO, NO, NO, NO, NO, NO, NO, NO, NO, NO, NO, NO, ROW, NO, NO, //
    NO, NO, NO, NO, NO, NO, NO, NO, NO, NO, NO, NO, NO, NO, NO, NO, //
    NO, NO, ROW, NO, NO, NO, ROW, ROW, NO, NO, NO, NO, NO, NO, NO, NO, //
    NO, NO, NO, NO, NO, NO, NO, NO, NO, NO, NO, NO, ROW, NO, ROW, NO, //
    NO, NO, NO, NO, NO, NO, NO, NO, NO, NO, NO, NO, NO, NO, NO, NO, //
    NO, NO, NO, NO, NO, NO, NO, NO, NO, NO, NO, NO, NO, NO, NO, NO, //
    NO, NO, NO, NO, NO, NO, NO, NO, NO, NO, NO, NO, NO, NO, NO, NO, //
    NO, NO, NO, NO, NO, NO, NO, NO, NO, NO, NO, NO, NO, NO, NO, NO, //
    NO, NO, NO, NO, NO, NO, NO, NO, NO, NO, NO, NO, NO, NO, NO, NO, //
    NO, NO, NO, NO, NO, NO, NO, NO, NO, NO, NO, NO, NO, NO, NO, NO, //
    NO, NO, NO, NO, NO, NO, NO, NO, NO, NO, NO, NO, NO, NO, NO, NO, //
    NO, NO, NO, NO, NO, NO, NO, NO, NO, NO, NO, NO, NO, NO, NO, NO, //
    NO, NO, NO, NO, NO, NO, NO, NO, NO, NO, NO, NO, NO, NO, NO, NO, //
    NO, NO, NO, NO, NO, NO, NO, NO, NO, NO, NO, NO, NO, NO, NO, NO, //
    NO, NO, NO, NO, NO, NO, NO, NO, NO, NO, NO, NO, NO, NO, NO, NO, //
    NO, NO, NO, NO, NO, NO, NO, NO, NO, NO, NO, NO, NO, NO, NO, NO, //
];

/// The rows that keep a text from beginning or ending anything in HTML, and from being changed as
/// it is read: a browser takes a CR for a line feed, and drops or replaces U+0000 (WHATWG HTML,
/// "Character references", "Preprocessing the input stream", "Tokenization").
pub fn html() -> Table<7>
    ensures { result ≡ html_rows }
{
    Table::new(
        rows! {
            '\0' => "\u{fffd}",
            '\r' => "&#13;",
            '"' => "&quot;",
            '&' => "&amp;",
            '\'' => "&#39;",
            '<' => "&lt;",
            '>' => "&gt;",
        },
        &LEAD_BYTES,
    )
}
