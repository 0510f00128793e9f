// Lines and columns.
ghost use Rattle.std.specs.Prelude.{◌≡◌, ◌≤◌, length};
ghost use Rattle.sml_lexer.specs.Places.{line_at, column_at};

/// A place for a reader: lines and columns from 1, columns in bytes.
#[derive(Clone, Copy, Debug, PartialEq, Eq)]
pub struct LineCol {
    pub line: u32,
    pub col: u32,
}

/// The line and the column of a byte, or of the end: the line is one more than the number of line ends
/// before it, and the column one more than the number of bytes since the last of them.
pub fn position(bytes: &[u8], at: u32) -> LineCol
    requires within { at ≤ length bytes.now }
    requires small { at ≤ 4194304 }
    ensures line { result.line ≡ line_at bytes.now at }
    ensures column { result.col ≡ column_at bytes.now at }
{
    let mut line: u32 = 1;
    let mut col: u32 = 1;
    for i in 0..at as usize {
        if bytes[i] == b'\n' {
            line += 1;
            col = 1;
        } else {
            col += 1;
        }
    }
    LineCol { line, col }
}
