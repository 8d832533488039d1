// Lines and columns of a text.
ghost use Rattle.std.specs.Prelude.{◌≡◌, ◌≤◌, length};
ghost use Rattle.commands.specs.Position.{before, line_after, column_after};

use reading::fill::MOST_BYTES;

// What stands before a place; no text that is read has a place beyond 65,535.
fn bytes_before(text: &[u8], place: usize) -> &[u8]
    ensures is { result.now ≡ before text.now place }
    ensures few { length result.now ≤ 65535 }
{
    let end = place.min(MOST_BYTES).min(text.len());
    &text[0..end]
}

fn line_after(bytes: &[u8]) -> usize
    requires { length bytes.now ≤ 65535 }
    ensures { result ≡ line_after bytes.now }
{
    // a loop: `count` of a `filter` looks at one byte a time, and a listing asks this of the text before each statement
    let mut line = 1;
    for b in bytes {
        if *b == b'\n' {
            line += 1;
        }
    }
    line
}

// A loop, since the count of what stands behind the last line feed, taken from the back, got no proof.
fn column_after(bytes: &[u8]) -> usize
    requires { length bytes.now ≤ 65535 }
    ensures { result ≡ column_after bytes.now }
{
    let mut column = 1;
    for b in bytes {
        column = if *b == b'\n' { 1 } else { column + 1 };
    }
    column
}

// The line of a place, from 1: a line ends at a line feed.
pub fn line_of(text: &[u8], place: usize) -> usize
    ensures { result ≡ line_after (before text.now place) }
{
    line_after(bytes_before(text, place))
}

// The column of a place, from 1: every byte of its line is a column.
pub fn column_of(text: &[u8], place: usize) -> usize
    ensures { result ≡ column_after (before text.now place) }
{
    column_after(bytes_before(text, place))
}
