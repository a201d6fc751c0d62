//! Lines and columns.
ghost use Rattle.std.specs.Prelude.{◌≡◌, ◌+◌, ◌-◌, ◌≤◌, ◌<◌, ◌^◌, length, Bool, if◌then◌else◌};
ghost use Rattle.soy_base.specs.Position.{is_break_end, begins_character, breaks_within, characters_before};

/// A position in a text as an editor shows it: a line and a column, both counted from 1.
#[derive(Clone, Copy, Debug, PartialEq, Eq)]
pub struct Position {
    pub line: u64,
    pub column: u64,
}

impl Position {
    /// The position after one more byte, which ends a line or not, and begins a character or not.
    fn after(self, ends_line: bool, begins_character: bool) -> Position
        requires line { self.line < 2 ^ 64 - 1 }
        requires column { self.column < 2 ^ 64 - 1 }
        ensures line { result.line ≡ self.line + (if ends_line then 1 else 0) }
        ensures column { result.column ≡ (if ends_line then 1 else self.column + (if begins_character then 1 else 0)) }
    {
        if ends_line {
            return Position {
                line: self.line + 1,
                column: 1,
            };
        }
        Position {
            line: self.line,
            column: self.column + u64::from(begins_character),
        }
    }
}

/// Whether a line break ends right after the byte at `at`.
fn is_break_end(text: &[u8], at: usize) -> bool
    requires { at < length text.now }
    ensures { result ≡ is_break_end text.now at }
{
    text[at] == b'\n' || text[at] == b'\r' && text.get(at + 1) != Some(&b'\n')
}

/// Whether a byte is the first of a character in UTF-8.
fn begins_character(byte: u8) -> bool
    ensures { result ≡ begins_character byte }
{
    byte < 128 || 191 < byte
}

/// The offset `at` as an index. No slice is so long that its length has no successor.
fn index_of(text: &[u8], at: u64) -> usize
    requires { at ≤ length text.now }
    ensures same { result ≡ at }
    ensures small { result < 2 ^ 64 - 1 }
{
    let _length = text.len();
    at as usize
}

/// The line and column of the offset `at`, in bytes, in a text. A line break is LF, CR LF
/// or CR; the column counts characters and not bytes.
pub fn line_of(text: &[u8], at: u64) -> Position
    requires { at ≤ length text.now }
    ensures line { result.line ≡ breaks_within text.now at + 1 }
    ensures column { result.column ≡ characters_before text.now at + 1 }
{
    let mut position = Position { line: 1, column: 1 };
    for (i, byte) in text[..index_of(text, at)].iter().enumerate() {
        position = position.after(is_break_end(text, i), begins_character(*byte));
    }
    position
}
