//! Lines and columns.

ghost use Rattle.std.specs.Prelude.{◌≡◌};
ghost use Rattle.pawk_explain.specs.Lines.{line_after, column_after};

/// A line and a column, counted from 1; a column counts bytes.
#[derive(Clone, Copy)]
pub(crate) struct Position {
    pub(crate) line: usize,
    pub(crate) column: usize,
}

/// The line of the byte that follows these.
fn line_number(before: &[u8]) -> usize
    ensures { result ≡ line_after before.now }
{
    1 + before.iter().filter(|byte| **byte == b'\n').count()
}

/// The column of the byte that follows these.
fn column_number(before: &[u8]) -> usize
    ensures { result ≡ column_after before.now }
{
    let mut start = before.len();
    while start > 0 && before[start - 1] != b'\n' {
        start -= 1;
    }
    1 + before.len() - start
}

/// Where the byte is that follows these.
pub(crate) fn position_after(before: &[u8]) -> Position
    ensures line { result.line ≡ line_after before.now }
    ensures column { result.column ≡ column_after before.now }
{
    Position {
        line: line_number(before),
        column: column_number(before),
    }
}
