// Where the words of a table begin and end.
ghost use Rattle.std.specs.Prelude.{◌≡◌, ◌==◌, ◌<◌, ◌≤◌, not, length};
ghost use Rattle.std.specs.List.{prefix_len, list_any};
ghost use Rattle.words.specs.Bytes.{blank};
ghost use Rattle.table_text.specs.Gaps.{gap_from, word_end};

use words::is_blank;

// The blanks before a word: where they end, and whether a line ends among them.
#[derive(Clone, Copy)]
pub struct Gap {
    pub end: usize,
    pub line: bool,
}

// A word: where it begins, whether it is the first of its line, and its bytes.
#[derive(Clone, Copy)]
pub struct Word<'t> {
    pub place: usize,
    pub new_line: bool,
    pub bytes: &'t [u8],
}

// How many bytes at the front are blanks.
fn blanks(bytes: &[u8]) -> usize
    ensures is { result ≡ prefix_len blank bytes.now }
    ensures within { result ≤ length bytes.now }
{
    bytes.iter().take_while(|b| is_blank(**b)).count()
}

// How many bytes at the front are no blanks.
fn word_length(bytes: &[u8]) -> usize
    ensures is { result ≡ prefix_len (λ b. not (blank b)) bytes.now }
    ensures within { result ≤ length bytes.now }
{
    bytes.iter().take_while(|b| !is_blank(**b)).count()
}

// Whether a line ends among these bytes.
fn ends_line(bytes: &[u8]) -> bool
    ensures { result ≡ list_any (λ b. b == 10) bytes.now }
{
    // `contains` looks at many bytes at a time, `any` at one
    bytes.contains(&b'\n')
}

// The blanks from a place on.
pub(crate) fn gap_from(text: &[u8], place: usize) -> Gap
    requires { place ≤ length text.now }
    ensures is { result ≡ gap_from text.now place }
    ensures within { (place ≤ result.end) × (result.end ≤ length text.now) }
{
    let end = place + blanks(&text[place..]);
    Gap {
        end,
        line: ends_line(&text[place..end]),
    }
}

// The place after the word whose first byte stands at `place`.
pub(crate) fn word_end(text: &[u8], place: usize) -> usize
    requires { place < length text.now }
    ensures is { result ≡ word_end text.now place }
    ensures within { (place < result) × (result ≤ length text.now) }
{
    let behind = place + 1;
    behind + word_length(&text[behind..])
}
